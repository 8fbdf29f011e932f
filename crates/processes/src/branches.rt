//! Edges of both branches, of which a condition chooses.
ghost use Rattle.std.specs.Prelude.{◌≡◌, [], IfErr, OnOk, Some, map};
ghost use Rattle.lowering.specs.Limits.{Excuses, next_of, with_more};
ghost use Rattle.lowering.specs.Lowered.{after, lowered};
ghost use Rattle.processes.specs.Carried.{taken};
ghost use Rattle.processes.specs.Numbers.{written};

use crate::choices::choose_all;
use crate::writing::{edges_at, write_at};
use flat_net::{Edge, FlatFault};
use lowering::Nodes;
use sqlite_items::Items;
use std::alloc::Global;

/// At these numbers the choice is taken between the first edges and the current ones.
pub(crate) fn choose_at(
    alloc: Global,
    nodes: &mut Nodes,
    current: &mut Items<Edge>,
    choice: Edge,
    numbers: &[usize],
    firsts: &[Edge],
) -> Result<(), FlatFault>
    ensures nodes { OnOk result (nodes.new
        ≡ with_more nodes.old (taken choice numbers.now firsts.now current.old (next_of nodes.old))) }
    ensures current { OnOk result (current.new ≡ written (map Some numbers.now)
        (taken choice numbers.now firsts.now current.old (next_of nodes.old)).edges current.old) }
    ensures fault { IfErr result (Excuses (after (next_of nodes.old)
        (taken choice numbers.now firsts.now current.old (next_of nodes.old)))) }
{
    let seconds = edges_at(alloc, current.as_slice(), numbers)?;
    let edges = choose_all(alloc, nodes, choice, firsts, seconds.as_slice())?;
    write_at(current, numbers, edges.as_slice());
    Ok(())
}
