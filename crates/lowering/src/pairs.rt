//! Operators that go bit by bit over two lists of edges.
ghost use Rattle.std.specs.Prelude.{◌≡◌, ◌∷◌, [], IfErr, IfOk, OnOk};
ghost use Rattle.lowering.specs.Limits.{Excuses, next_of, with_more};
ghost use Rattle.lowering.specs.Lowered.{after};
ghost use Rattle.lowering.specs.Operators.{all_paired, paired};

use crate::{Nodes, choose};
use flat_net::{Edge, FlatFault, Node};
use sqlite_items::Items;
use std::alloc::Global;

/// What is made of two edges.
#[derive(Clone, Copy)]
pub(crate) enum Pairing {
    And,
    Or,
    Xor,
    Xnor,
    /// The left edge where this one is 1, and else the right one.
    Choice(Edge),
}

/// What is made of one bit of each.
pub(crate) fn pair(
    nodes: &mut Nodes,
    pairing: Pairing,
    left: Edge,
    right: Edge,
) -> Result<Edge, FlatFault>
    ensures nodes { OnOk result (nodes.new ≡ with_more nodes.old (paired pairing left right (next_of nodes.old))) }
    ensures edges { IfOk result (λ edge. edge ∷ [] ≡ (paired pairing left right (next_of nodes.old)).edges) }
    ensures fault { IfErr result (Excuses (after (next_of nodes.old) (paired pairing left right (next_of nodes.old)))) }
{
    match pairing {
        Pairing::And => Ok(nodes.push(Node::And(left, right))?),
        Pairing::Or => {
            let neither = nodes.push(Node::And(left.negated(), right.negated()))?;
            Ok(neither.negated())
        }
        Pairing::Xor => Ok(nodes.push(Node::Xor(left, right))?),
        Pairing::Xnor => {
            let differ = nodes.push(Node::Xor(left, right))?;
            Ok(differ.negated())
        }
        Pairing::Choice(choice) => Ok(choose(nodes, choice, left, right)?),
    }
}

/// Bit by bit, as far as both go.
pub(crate) fn pair_all(
    alloc: Global,
    nodes: &mut Nodes,
    pairing: Pairing,
    left: &[Edge],
    right: &[Edge],
) -> Result<Items<Edge>, FlatFault>
    ensures nodes { OnOk result (nodes.new
        ≡ with_more nodes.old (all_paired pairing left.now right.now (next_of nodes.old))) }
    ensures edges { IfOk result (λ edges. edges ≡ (all_paired pairing left.now right.now (next_of nodes.old)).edges) }
    ensures fault { IfErr result (Excuses (after (next_of nodes.old)
        (all_paired pairing left.now right.now (next_of nodes.old)))) }
{
    let mut edges = Items::new(alloc);
    for i in 0..left.len().min(right.len()) {
        let edge = pair(nodes, pairing, left[i], right[i])?;
        edges.push(edge)?;
    }
    Ok(edges)
}
