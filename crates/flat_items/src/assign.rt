//! Continuous assignments.
ghost use Rattle.std.specs.Prelude.{IfErr, OnOk};
ghost use Rattle.flat_design.specs.Items.{assign_given};
ghost use Rattle.flat_items.specs.Carried.{Gives, GivesTo};

use crate::side::{Side, Sided};
use drives::Driven;
use flat_net::FlatFault;
use frames::Frame;
use lowering::{Nodes, lower_assigned};
use std::alloc::Global;
use targets::left_numbers;
use vlog_tree::{Expr, Left};

/// The bits of the left side are given the edges of the right side.
pub(crate) fn lower_assign(
    alloc: Global,
    frame: &Frame<'_>,
    nodes: &mut Nodes,
    driven: &mut Driven,
    left: &Left,
    right: &Expr,
) -> Result<(), FlatFault>
    ensures given { OnOk result (Gives frame.now (λ setting instance. assign_given setting instance left.now right.now)
        nodes.old nodes.new driven.old driven.new) }
    ensures fault { IfErr result (GivesTo frame.now (λ setting instance. assign_given setting instance left.now right.now)
        nodes.old) }
{
    let inside = Sided {
        side: Side::Inside,
        frame,
    };
    let numbers = left_numbers(alloc, &inside, left)?;
    let edges = lower_assigned(alloc, nodes, frame, numbers.len(), right)?;
    driven.give_down(numbers.as_slice(), edges.as_slice());
    Ok(())
}
