//! The rule on the terminals of gates.
ghost use Rattle.std.specs.Prelude.{◌≡◌, ◌++◌, fold, flat_map};
ghost use Rattle.hierarchy.specs.Failures.{earlier};
ghost use Rattle.width_rules.specs.Capped.{terminal_failures};
ghost use Rattle.width_rules.specs.Widths.{bad_terminal, bad_terminals, bad_terminals_in, expr_shape, left_shape};

use crate::inside::{shape_of_expr, shape_of_left};
use crate::shape::Shape;
use hierarchy::Earliest;
use nets::Nets;
use vlog_tree::{Expr, Item, Left};

/// Notes each terminal of a gate that is not one bit wide.
pub fn note_bad_terminals<'a>(nets: &Nets<'a>, found: &mut Earliest<'a>)
    ensures { found.new ≡ fold earlier found.old (bad_terminals nets.now) }
{
    let items = nets.module().items.as_slice();
    for item in items {
        note_in_item(nets, found, item);
    }
}

fn note_in_item<'a>(nets: &Nets<'a>, found: &mut Earliest<'a>, item: &'a Item)
    ensures { found.new ≡ fold earlier found.old (bad_terminals_in nets.now item.now) }
{
    if let Item::Gate { outs, ins, .. } = item {
        note_in_gate(nets, found, outs.as_slice(), ins.as_slice());
    }
}

fn note_in_gate<'a>(nets: &Nets<'a>, found: &mut Earliest<'a>, outs: &'a [Left], ins: &'a [Expr])
    ensures { found.new ≡ fold earlier found.old
        (flat_map (λ out. bad_terminal nets.now (left_shape nets.now out)) outs.now
        ++ flat_map (λ input. bad_terminal nets.now (expr_shape nets.now input)) ins.now) }
{
    note_outputs(nets, found, outs);
    note_inputs(nets, found, ins);
}

fn note_outputs<'a>(nets: &Nets<'a>, found: &mut Earliest<'a>, outs: &'a [Left])
    ensures { found.new ≡ fold earlier found.old (flat_map (λ out. bad_terminal nets.now (left_shape nets.now out)) outs.now) }
{
    for out in outs {
        note_output(nets, found, out);
    }
}

fn note_inputs<'a>(nets: &Nets<'a>, found: &mut Earliest<'a>, ins: &'a [Expr])
    ensures { found.new ≡ fold earlier found.old (flat_map (λ input. bad_terminal nets.now (expr_shape nets.now input)) ins.now) }
{
    for input in ins {
        note_input(nets, found, input);
    }
}

#[tactic(auto, using(crate::proofs::ShapeLemmas::terminal_kept))]
fn note_output<'a>(nets: &Nets<'a>, found: &mut Earliest<'a>, out: &'a Left)
    ensures { found.new ≡ fold earlier found.old (bad_terminal nets.now (left_shape nets.now out.now)) }
{
    note_terminal(nets, found, &shape_of_left(nets, out));
}

#[tactic(auto, using(crate::proofs::ShapeLemmas::terminal_kept))]
fn note_input<'a>(nets: &Nets<'a>, found: &mut Earliest<'a>, input: &'a Expr)
    ensures { found.new ≡ fold earlier found.old (bad_terminal nets.now (expr_shape nets.now input.now)) }
{
    note_terminal(nets, found, &shape_of_expr(nets, input));
}

fn note_terminal<'a>(nets: &Nets<'a>, found: &mut Earliest<'a>, terminal: &Shape<'a>)
    ensures { found.new ≡ fold earlier found.old (terminal_failures nets.now terminal.now) }
{
    if terminal.width != 1 {
        terminal.note(nets, found);
    }
}
