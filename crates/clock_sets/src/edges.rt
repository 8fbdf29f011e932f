//! The names after `posedge`, by their numbers.
ghost use Rattle.std.specs.Prelude.{◌≡◌, ◌<◌, ◌++◌, [], IfOk, OnOk, cond, filter_map, flat_map, fold, length};
ghost use Rattle.std.specs.Option.{option_to_list};
ghost use Rattle.hierarchy.specs.Graph.{name_at};
ghost use Rattle.hierarchy.specs.Reach.{reaches};
ghost use Rattle.clock_sets.specs.Numbers.{number_of};
ghost use Rattle.clock_sets.specs.Sets.{edge_in, edges};
ghost use Rattle.clock_sets.specs.Steps.{with_signal};

use crate::numbers::Numbers;
use bm_base::NoMemory;
use nets::Nets;
use sqlite_items::Items;
use std::alloc::Global;
use vlog_tree::Item;

/// The numbers of the names after `posedge` in the modules that are reached, in source order, without those that are no
/// names of their modules.
pub(crate) fn edges_of(alloc: Global, numbers: &Numbers) -> Result<Items<usize>, NoMemory>
    ensures { IfOk result (λ found. found ≡ filter_map (number_of numbers.now.design.modules)
        (edges numbers.now.design numbers.now.top)) }
{
    let mut found = Items::new(alloc);
    for (place, nets) in numbers.design().modules().iter().enumerate() {
        add_if_reached(numbers, place, nets, &mut found)?;
    }
    Ok(found)
}

// Adds those of the module at a place, if it is reached.
fn add_if_reached(
    numbers: &Numbers,
    place: usize,
    nets: &Nets,
    found: &mut Items<usize>,
) -> Result<(), NoMemory>
    requires { place < length numbers.now.design.modules }
    ensures { OnOk result (found.new ≡ fold (with_signal (number_of numbers.now.design.modules)) found.old
        (cond (reaches numbers.now.design numbers.now.top (name_at numbers.now.design.modules place))
        (flat_map (edge_in nets.now) nets.now.items) [])) }
{
    if numbers.design().is_reached(place) {
        add_module(numbers, nets, found)
    } else {
        Ok(())
    }
}

fn add_module(numbers: &Numbers, nets: &Nets, found: &mut Items<usize>) -> Result<(), NoMemory>
    ensures { OnOk result (found.new ≡ fold (with_signal (number_of numbers.now.design.modules)) found.old
        (flat_map (edge_in nets.now) nets.now.items)) }
{
    let items = nets.module().items.as_slice();
    for item in items {
        add_item(numbers, nets, item, found)?;
    }
    Ok(())
}

fn add_item(
    numbers: &Numbers,
    nets: &Nets,
    item: &Item,
    found: &mut Items<usize>,
) -> Result<(), NoMemory>
    ensures { OnOk result (found.new ≡ fold (with_signal (number_of numbers.now.design.modules)) found.old
        (edge_in nets.now item.now)) }
{
    match item {
        Item::Always { clock, .. } => {
            let number = numbers.number_of(nets.module().name.bytes(), clock.bytes());
            add_number(found, number)
        }
        _ => Ok(()),
    }
}

/// Adds the number, if there is one.
pub(crate) fn add_number(found: &mut Items<usize>, number: Option<usize>) -> Result<(), NoMemory>
    ensures { OnOk result (found.new ≡ found.old ++ option_to_list number) }
{
    if let Some(number) = number {
        found.push(number)?;
    }
    Ok(())
}
