//! Rule E13: a name that carries the clock is read as a clock alone, and is no output port.
ghost use Rattle.std.specs.Prelude.{◌≡◌, ◌<◌, ◌||◌, ◌∷◌, [], IfOk, OnOk, Some, cond, filter, flat_map, fold, is_some, length};
ghost use Rattle.std.specs.Option.{option_to_list};
ghost use Rattle.hierarchy.specs.Failures.{earlier};
ghost use Rattle.hierarchy.specs.Graph.{name_at};
ghost use Rattle.vlog_tree.specs.Meaning.Instances.{connection_of, connections};
ghost use Rattle.vlog_tree.specs.Meaning.Names.{is_output};
ghost use Rattle.vlog_tree.specs.Meaning.Uses.{expr_uses};
ghost use Rattle.nets.specs.Nets.{net_of, nets as all_nets};
ghost use Rattle.clock_sets.specs.Passing.{both, plain_left, plain_name};
ghost use Rattle.clock_sets.specs.Sets.{clocked_by};
ghost use Rattle.clock_rules.specs.Clocks.{bad_output, bad_read, clock_as_data, clock_as_data_in, connection_reads, data_reads};
ghost use Rattle.clock_rules.specs.Kept.{child_of_links};
ghost use Rattle.clock_rules.specs.Told.{is_reached};

use crate::reads::{note_expr, note_exprs, note_stmt};
use bm_base::NoMemory;
use clock_sets::{ClockedNames, plain_left, plain_name};
use design_nets::{DesignNets, port_of};
use hierarchy::{Earliest, note_if};
use nets::{Net, Nets};
use std::alloc::Global;
use vlog_tree::{Expr, Item, Left, Link};

/// Notes each output port that carries the clock, and each use of a name that does: in an expression that is assigned,
/// but for the right name of a plain assign; in an input of a gate; in a condition or a right side of a statement; in an
/// initial value; and in what is connected to a port that is no output, but for a plain connection. Takes time that grows
/// with the size of the design.
pub fn note_clock_as_data<'a>(
    alloc: Global,
    design: &DesignNets<'a>,
    clock: &[u8],
    found: &mut Earliest<'a>,
) -> Result<(), NoMemory>
    ensures { OnOk result (found.new ≡ fold earlier found.old (clock_as_data (clocked_by design.now clock.now))) }
{
    let rule = DataRule::of(alloc, design, clock)?;
    for (place, nets) in design.modules().iter().enumerate() {
        rule.note_if_reached(place, nets, found);
    }
    Ok(())
}

/// The rule, with the names that carry the clock.
#[derive(Drop)]
pub(crate) struct DataRule<'d, 'a> {
    design: &'d DesignNets<'a>,
    names: ClockedNames<'d, 'a>,
    ghost told: { names ≡ clocked_by design.now names.clock },
}

impl<'d, 'a> DataRule<'d, 'a> {
    fn of(
        alloc: Global,
        design: &'d DesignNets<'a>,
        clock: &'d [u8],
    ) -> Result<DataRule<'d, 'a>, NoMemory>
        ensures { IfOk result (λ rule. rule.names ≡ clocked_by design.now clock.now) }
    {
        let names = ClockedNames::of(alloc, design, clock)?;
        Ok(DataRule { design, names })
    }

    // Notes what is wrong in the module at a place, if it is reached.
    fn note_if_reached(&self, place: usize, nets: &Nets<'a>, found: &mut Earliest<'a>)
        requires within { place < length self.now.names.design.modules }
        requires name { name_at self.now.names.design.modules place ≡ nets.now.name }
        ensures { found.new ≡ fold earlier found.old
            (flat_map (clock_as_data_in self.now.names) (filter (is_reached self.now.names) (nets.now ∷ []))) }
    {
        if self.design.is_reached(place) {
            self.note_in_module(nets, found);
        }
    }

    fn note_in_module(&self, nets: &Nets<'a>, found: &mut Earliest<'a>)
        ensures { found.new ≡ fold earlier found.old (clock_as_data_in self.now.names nets.now) }
    {
        note_outputs(&self.names, nets, found);
        self.note_items(nets, found);
    }

    fn note_items(&self, nets: &Nets<'a>, found: &mut Earliest<'a>)
        ensures { found.new ≡ fold earlier found.old
            (flat_map (λ i. flat_map (bad_read self.now.names nets.now) (data_reads self.now.names.design nets.now i)) nets.now.items) }
    {
        let m = nets.module();
        for item in m.items.as_slice() {
            self.note_item(nets, item, found);
        }
    }

    fn note_item(&self, nets: &Nets<'a>, item: &'a Item, found: &mut Earliest<'a>)
        ensures { found.new ≡ fold earlier found.old
            (flat_map (bad_read self.now.names nets.now) (data_reads self.now.names.design nets.now item.now)) }
    {
        match item {
            Item::Decl { .. } => {}
            Item::Assign { left, right, .. } => {
                note_assign(&self.names, nets, left, right, found);
            }
            Item::Gate { ins, .. } => note_inputs(&self.names, nets, ins.as_slice(), found),
            Item::Always { body, .. } => note_stmt(&self.names, nets, body, found),
            Item::Initial { value, .. } => note_expr(&self.names, nets, value, found),
            Item::Instance { module, links, .. } => {
                if let Some(inner) = self.design.named(module.bytes()) {
                    note_links(&self.names, nets, inner, links.as_slice(), found);
                }
            }
        }
    }
}

fn note_outputs<'a>(names: &ClockedNames<'_, 'a>, nets: &Nets<'a>, found: &mut Earliest<'a>)
    ensures { found.new ≡ fold earlier found.old
        (flat_map (λ entry. bad_output names.now nets.now entry.0) (all_nets nets.now)) }
{
    for i in 0..nets.len() {
        let (name, net) = nets.entry_at(i);
        note_output(names, nets, name, net, found);
    }
}

fn note_output<'a>(
    names: &ClockedNames<'_, 'a>,
    nets: &Nets<'a>,
    name: &'a [u8],
    net: &Net,
    found: &mut Earliest<'a>,
)
    requires { net_of nets.now name.now ≡ Some net.now }
    ensures { found.new ≡ fold earlier found.old (bad_output names.now nets.now name.now) }
{
    let m = nets.module();
    let is_bad = net.is_output() && names.has(m.name.bytes(), name);
    note_if(is_bad, m, net.at(), name, found);
}

fn note_assign<'a>(
    names: &ClockedNames<'_, 'a>,
    nets: &Nets<'a>,
    left: &'a Left,
    right: &'a Expr,
    found: &mut Earliest<'a>,
)
    ensures { found.new ≡ fold earlier found.old (flat_map (bad_read names.now nets.now)
        (cond (is_some (both (plain_left nets.now left.now) (plain_name nets.now right.now))) [] (expr_uses right.now))) }
{
    if !is_plain_assign(nets, left, right) {
        note_expr(names, nets, right, found);
    }
}

fn is_plain_assign<'a>(nets: &Nets<'a>, left: &'a Left, right: &'a Expr) -> bool
    ensures { result ≡ is_some (both (plain_left nets.now left.now) (plain_name nets.now right.now)) }
{
    match (plain_left(nets, left), plain_name(nets, right)) {
        (Some(_), Some(_)) => true,
        _ => false,
    }
}

fn note_inputs<'a>(
    names: &ClockedNames<'_, 'a>,
    nets: &Nets<'a>,
    ins: &'a [Expr],
    found: &mut Earliest<'a>,
)
    ensures { found.new ≡ fold earlier found.old
        (flat_map (bad_read names.now nets.now) (flat_map expr_uses ins.now)) }
{
    for input in ins {
        note_expr(names, nets, input, found);
    }
}

// Notes what is read by the ports of an instance of the module `inner`.
fn note_links<'a>(
    names: &ClockedNames<'_, 'a>,
    nets: &Nets<'a>,
    inner: &Nets<'a>,
    links: &'a [Link],
    found: &mut Earliest<'a>,
)
    ensures { found.new ≡ fold earlier found.old (flat_map (bad_read names.now nets.now)
        (flat_map (connection_reads nets.now (child_of_links inner.now links.now))
        (connections (child_of_links inner.now links.now)))) }
{
    for (place, link) in links.iter().enumerate() {
        note_link(names, nets, inner, place, link, found);
    }
}

fn note_link<'a>(
    names: &ClockedNames<'_, 'a>,
    nets: &Nets<'a>,
    inner: &Nets<'a>,
    place: usize,
    link: &'a Link,
    found: &mut Earliest<'a>,
)
    ensures { found.new ≡ fold earlier found.old (flat_map (bad_read names.now nets.now)
        (flat_map (connection_reads nets.now (child_of_links inner.now []))
        (option_to_list (connection_of inner.now (place, link.now))))) }
{
    match (port_of(inner.module(), place, link), &link.expr) {
        (Some(port), Some(expr)) => note_connection(names, nets, inner, port, expr, found),
        _ => {}
    }
}

fn note_connection<'a>(
    names: &ClockedNames<'_, 'a>,
    nets: &Nets<'a>,
    inner: &Nets<'a>,
    port: &'a [u8],
    expr: &'a Expr,
    found: &mut Earliest<'a>,
)
    ensures { found.new ≡ fold earlier found.old (flat_map (bad_read names.now nets.now)
        (cond (is_output inner.now port.now || is_some (plain_name nets.now expr.now)) [] (expr_uses expr.now))) }
{
    let passes = inner.is_output(port) || plain_name(nets, expr).is_some();
    if !passes {
        note_expr(names, nets, expr, found);
    }
}
