//! The steps of a design by which a clock passes on.
ghost use Rattle.std.specs.Prelude.{◌≡◌, ◌<◌, [], IfOk, OnOk, cond, filter_map, flat_map, fold, length, map};
ghost use Rattle.std.specs.List.{enumerate_from};
ghost use Rattle.std.specs.Option.{option_to_list};
ghost use Rattle.hierarchy.specs.Graph.{name_at};
ghost use Rattle.hierarchy.specs.Reach.{reaches};
ghost use Rattle.vlog_tree.specs.Meaning.Instances.{connections};
ghost use Rattle.vlog_tree.specs.Meaning.Names.{is_input};
ghost use Rattle.clock_sets.specs.Numbers.{number_of};
ghost use Rattle.clock_sets.specs.Passing.{assign_pass, both, connection_pass, passes, passes_in, plain_left, plain_name};
ghost use Rattle.clock_sets.specs.Steps.{instance_of, link_passes, port_passes, step_of, with_pass};

use crate::numbers::Numbers;
use crate::plain::{plain_left, plain_name};
use crate::steps::{Step, add_step};
use bm_base::NoMemory;
use design_nets::port_of;
use nets::Nets;
use sqlite_items::Items;
use std::alloc::Global;
use vlog_tree::{Expr, Item, Left, Link};

/// All steps in the modules that are reached, in source order.
pub(crate) fn steps_of(alloc: Global, numbers: &Numbers) -> Result<Items<Step>, NoMemory>
    ensures { IfOk result (λ steps. steps ≡ filter_map (step_of (number_of numbers.now.design.modules))
        (passes numbers.now.design numbers.now.top)) }
{
    let mut steps = Items::new(alloc);
    for (place, nets) in numbers.design().modules().iter().enumerate() {
        add_if_reached(numbers, place, nets, &mut steps)?;
    }
    Ok(steps)
}

// Adds the steps of the module at a place, if it is reached.
fn add_if_reached(
    numbers: &Numbers,
    place: usize,
    nets: &Nets,
    steps: &mut Items<Step>,
) -> Result<(), NoMemory>
    requires { place < length numbers.now.design.modules }
    ensures { OnOk result (steps.new ≡ fold (with_pass (number_of numbers.now.design.modules)) steps.old
        (cond (reaches numbers.now.design numbers.now.top (name_at numbers.now.design.modules place))
        (flat_map (passes_in numbers.now.design nets.now) nets.now.items) [])) }
{
    if numbers.design().is_reached(place) {
        add_module(numbers, nets, steps)
    } else {
        Ok(())
    }
}

fn add_module(numbers: &Numbers, nets: &Nets, steps: &mut Items<Step>) -> Result<(), NoMemory>
    ensures { OnOk result (steps.new ≡ fold (with_pass (number_of numbers.now.design.modules)) steps.old
        (flat_map (passes_in numbers.now.design nets.now) nets.now.items)) }
{
    let items = nets.module().items.as_slice();
    for item in items {
        add_item(numbers, nets, item, steps)?;
    }
    Ok(())
}

fn add_item(
    numbers: &Numbers,
    nets: &Nets,
    item: &Item,
    steps: &mut Items<Step>,
) -> Result<(), NoMemory>
    ensures { OnOk result (steps.new ≡ fold (with_pass (number_of numbers.now.design.modules)) steps.old
        (passes_in numbers.now.design nets.now item.now)) }
{
    match item {
        Item::Assign { left, right, .. } => add_assign(numbers, nets, left, right, steps),
        Item::Instance { module, links, .. } => match numbers.design().named(module.bytes()) {
            Some(inner) => add_instance(numbers, nets, inner, links.as_slice(), steps),
            None => Ok(()),
        },
        _ => Ok(()),
    }
}

fn add_assign(
    numbers: &Numbers,
    nets: &Nets,
    left: &Left,
    right: &Expr,
    steps: &mut Items<Step>,
) -> Result<(), NoMemory>
    ensures { OnOk result (steps.new ≡ fold (with_pass (number_of numbers.now.design.modules)) steps.old
        (map (assign_pass nets.now) (option_to_list (both (plain_left nets.now left.now) (plain_name nets.now right.now))))) }
{
    match plain_left(nets, left) {
        Some(to) => match plain_name(nets, right) {
            Some(from) => {
                let module_name = nets.module().name.bytes();
                add_step(
                    steps,
                    numbers.number_of(module_name, from),
                    numbers.number_of(module_name, to),
                )
            }
            None => Ok(()),
        },
        None => Ok(()),
    }
}

// Adds the steps through the connections of an instance of the inner module.
fn add_instance(
    numbers: &Numbers,
    nets: &Nets,
    inner: &Nets,
    links: &[Link],
    steps: &mut Items<Step>,
) -> Result<(), NoMemory>
    ensures { OnOk result (steps.new ≡ fold (with_pass (number_of numbers.now.design.modules)) steps.old
        (flat_map (link_passes nets.now inner.now) (enumerate_from 0 links.now))) }
{
    for (place, link) in links.iter().enumerate() {
        add_link(numbers, nets, inner, place, link, steps)?;
    }
    Ok(())
}

fn add_link(
    numbers: &Numbers,
    nets: &Nets,
    inner: &Nets,
    place: usize,
    link: &Link,
    steps: &mut Items<Step>,
) -> Result<(), NoMemory>
    ensures { OnOk result (steps.new ≡ fold (with_pass (number_of numbers.now.design.modules)) steps.old
        (link_passes nets.now inner.now (place, link.now))) }
{
    match port_of(inner.module(), place, link) {
        Some(port) => match &link.expr {
            Some(expr) => add_connection(numbers, nets, inner, port, expr, steps),
            None => Ok(()),
        },
        None => Ok(()),
    }
}

fn add_connection(
    numbers: &Numbers,
    nets: &Nets,
    inner: &Nets,
    port: &[u8],
    expr: &Expr,
    steps: &mut Items<Step>,
) -> Result<(), NoMemory>
    ensures { OnOk result (steps.new ≡ fold (with_pass (number_of numbers.now.design.modules)) steps.old
        (connection_pass nets.now (instance_of inner.now []) (record { port = port.now; expression = expr.now }))) }
{
    if inner.is_input(port) {
        add_plain(numbers, nets, inner, port, expr, steps)
    } else {
        Ok(())
    }
}

// Adds the step to an input port, if the connection is plain.
fn add_plain(
    numbers: &Numbers,
    nets: &Nets,
    inner: &Nets,
    port: &[u8],
    expr: &Expr,
    steps: &mut Items<Step>,
) -> Result<(), NoMemory>
    ensures { OnOk result (steps.new ≡ fold (with_pass (number_of numbers.now.design.modules)) steps.old
        (port_passes nets.now inner.now port.now (plain_name nets.now expr.now))) }
{
    match plain_name(nets, expr) {
        Some(name) => add_step(
            steps,
            numbers.number_of(nets.module().name.bytes(), name),
            numbers.number_of(inner.module().name.bytes(), port),
        ),
        None => Ok(()),
    }
}
