//! Rule E3: each instance in a reached module has a module, which does not lead back, and ends no path that is too long.
ghost use Rattle.std.specs.Prelude.{◌≡◌, ◌<◌, IfOk, OnOk, Some, ℕ, flat_map, fold, length, true};
ghost use Rattle.hierarchy.specs.Failures.{earlier, earliest};
ghost use Rattle.hierarchy.specs.Graph.{ahead, bad_item, bad_items_from, graph_of, has, inner_place, inner_places, walks_to};
ghost use Rattle.hierarchy.specs.Places.{place_in};

use crate::failure::Earliest;
use crate::places::Places;
use crate::reach::Reach;
use bm_base::NoMemory;
use std::alloc::Global;
use vlog_tree::{Item, Module};

/// The first instance that is refused.
pub(crate) fn first_bad<'a>(
    alloc: Global,
    places: &Places,
    reach: &Reach,
    modules: &'a [Module],
) -> Result<Earliest<'a>, NoMemory>
    requires { reach.now.graph ≡ graph_of (place_in places.now) modules.now }
    ensures { IfOk result
        (λ found. found ≡ earliest (bad_items_from reach.now (place_in places.now) 0 modules.now)) }
{
    let mut found = Earliest::new();
    for (place, module) in modules.iter().enumerate() {
        if reach.is_reached(place) {
            note_module(alloc, places, reach, place, module, &mut found)?;
        }
    }
    Ok(found)
}

// Notes the instances that are refused in the module at this place, which is reached.
fn note_module<'a>(
    alloc: Global,
    places: &Places,
    reach: &Reach,
    place: usize,
    outer: &'a Module,
    found: &mut Earliest<'a>,
) -> Result<(), NoMemory>
    requires within { place < length reach.now.graph }
    requires reached { walks_to reach.now.graph reach.now.top place ≡ true }
    requires edges { ahead reach.now.graph place ≡ inner_places (place_in places.now) outer.now.items }
    ensures { OnOk result (found.new ≡ fold earlier found.old
        (flat_map (bad_item reach.now (place_in places.now) place outer.now) outer.now.items)) }
{
    for item in outer.items.as_slice() {
        note_item(alloc, places, reach, place, outer, item, found)?;
    }
    Ok(())
}

// Notes the item, if it is an instance that is refused.
fn note_item<'a>(
    alloc: Global,
    places: &Places,
    reach: &Reach,
    place: usize,
    outer: &'a Module,
    item: &'a Item,
    found: &mut Earliest<'a>,
) -> Result<(), NoMemory>
    requires within { place < length reach.now.graph }
    requires reached { walks_to reach.now.graph reach.now.top place ≡ true }
    requires edge { (inner : ℕ) → inner_place (place_in places.now) item.now ≡ Some inner
        → has (ahead reach.now.graph place) inner ≡ true }
    ensures { OnOk result (found.new ≡ fold earlier found.old
        (bad_item reach.now (place_in places.now) place outer.now item.now)) }
{
    match item {
        Item::Instance {
            at,
            module,
            name,
            ..
        } => {
            let inner = places.get(module.bytes());
            if !found.is_settled(*at) && reach.is_bad(alloc, place, inner)? {
                found.note(*at, outer.name.bytes(), name.bytes());
            }
            Ok(())
        }
        _ => Ok(()),
    }
}
