//! Edges that a condition chooses.
ghost use Rattle.std.specs.Prelude.{◌≡◌, IfErr, IfOk, OnOk};
ghost use Rattle.lowering.specs.Gates.{chosen_bits};
ghost use Rattle.lowering.specs.Limits.{Excuses, next_of, with_more};
ghost use Rattle.lowering.specs.Lowered.{after};

use flat_net::{Edge, FlatFault};
use lowering::{Nodes, choose};
use sqlite_items::Items;
use std::alloc::Global;

/// Bit by bit the first edge where the choice is 1, and else the second.
pub(crate) fn choose_all(
    alloc: Global,
    nodes: &mut Nodes,
    choice: Edge,
    firsts: &[Edge],
    seconds: &[Edge],
) -> Result<Items<Edge>, FlatFault>
    ensures nodes { OnOk result (nodes.new
        ≡ with_more nodes.old (chosen_bits choice firsts.now seconds.now (next_of nodes.old))) }
    ensures edges { IfOk result (λ edges. edges ≡ (chosen_bits choice firsts.now seconds.now (next_of nodes.old)).edges) }
    ensures fault { IfErr result (Excuses (after (next_of nodes.old)
        (chosen_bits choice firsts.now seconds.now (next_of nodes.old)))) }
{
    let mut edges = Items::new(alloc);
    for i in 0..firsts.len().min(seconds.len()) {
        let edge = choose(nodes, choice, firsts[i], seconds[i])?;
        edges.push(edge)?;
    }
    Ok(edges)
}
