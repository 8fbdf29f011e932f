//! The rule on what is assigned.
ghost use Rattle.std.specs.Prelude.{◌≡◌, fold};
ghost use Rattle.hierarchy.specs.Failures.{earlier};
ghost use Rattle.target_rules.specs.Targets.{bad_targets, bad_targets_in};

use crate::assignment::Assignment;
use crate::connections::note_links;
use crate::lefts::{note_left, note_lefts};
use crate::statements::note_stmt;
use design_nets::DesignNets;
use hierarchy::Earliest;
use nets::Nets;
use vlog_tree::Item;

/// Notes each name that is an input or a `reg` and that a continuous assignment, a gate or the output port of an
/// instance gives a value, each connection to an output port that is no name, select or concatenation of these, and
/// each name that is no `reg` and that an `always` or an `initial` gives a value.
pub fn note_bad_targets<'a>(design: &DesignNets<'a>, nets: &Nets<'a>, found: &mut Earliest<'a>)
    ensures { found.new ≡ fold earlier found.old (bad_targets design.now.design nets.now) }
{
    let items = nets.module().items.as_slice();
    for item in items {
        note_in_item(design, nets, found, item);
    }
}

fn note_in_item<'a>(
    design: &DesignNets<'a>,
    nets: &Nets<'a>,
    found: &mut Earliest<'a>,
    item: &'a Item,
)
    ensures { found.new ≡ fold earlier found.old (bad_targets_in design.now.design nets.now item.now) }
{
    match item {
        Item::Decl { .. } => {}
        Item::Assign { left, .. } => note_left(Assignment::Continuous, nets, found, left),
        Item::Gate { outs, .. } => {
            note_lefts(Assignment::Continuous, nets, found, outs.as_slice());
        }
        Item::Instance { module, links, .. } => {
            if let Some(inner) = design.named(module.bytes()) {
                note_links(nets, found, inner, links.as_slice());
            }
        }
        Item::Always { body, .. } => note_stmt(nets, found, body),
        Item::Initial { at, name, .. } => {
            Assignment::Procedural.note_name(nets, found, *at, name);
        }
    }
}
