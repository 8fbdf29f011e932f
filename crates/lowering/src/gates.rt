//! The nodes of operators, over the edges of their operands' bits.
ghost use Rattle.std.specs.Prelude.{◌≡◌, ◌∷◌, [], IfErr, IfOk, OnOk, false, map, true};
ghost use Rattle.flat_net.specs.Edges.{one_edge, zero_edge};
ghost use Rattle.lowering.specs.Gates.{all_bits, any_bit, chosen, folded, folded_from, parity};
ghost use Rattle.lowering.specs.Limits.{Excuses, next_of, with_more};
ghost use Rattle.lowering.specs.Lowered.{after};
ghost use Rattle.lowering.specs.Operators.{gate_of, no_bit, turned};

use crate::Nodes;
use flat_net::{Edge, FlatFault, Node};

/// A kind of node that has two edges.
#[derive(Clone, Copy)]
enum Gate {
    And,
    Xor,
}

impl Gate {
    /// The node of this kind with these edges.
    fn node(self, left: Edge, right: Edge) -> Node
        ensures { result ≡ gate_of self left right }
    {
        match self {
            Gate::And => Node::And(left, right),
            Gate::Xor => Node::Xor(left, right),
        }
    }
}

// The edge, or its negation.
fn turned(turn: bool, edge: Edge) -> Edge
    ensures { result ≡ turned turn edge }
{
    if turn { edge.negated() } else { edge }
}

// ---- reductions

// One node for each bit more.
fn fold_from(
    nodes: &mut Nodes,
    gate: Gate,
    turn: bool,
    first: Edge,
    bits: &[Edge],
) -> Result<Edge, FlatFault>
    ensures nodes { OnOk result (nodes.new
        ≡ with_more nodes.old (folded_from (gate_of gate) first (map (turned turn) bits.now) (next_of nodes.old))) }
    ensures edges { IfOk result (λ edge. edge ∷ []
        ≡ (folded_from (gate_of gate) first (map (turned turn) bits.now) (next_of nodes.old)).edges) }
    ensures fault { IfErr result (Excuses (after (next_of nodes.old)
        (folded_from (gate_of gate) first (map (turned turn) bits.now) (next_of nodes.old)))) }
{
    let mut so_far = first;
    for bit in bits {
        so_far = nodes.push(gate.node(so_far, turned(turn, *bit)))?;
    }
    Ok(so_far)
}

// The edge of none where there is no bit.
fn fold(
    nodes: &mut Nodes,
    gate: Gate,
    none: Edge,
    turn: bool,
    bits: &[Edge],
) -> Result<Edge, FlatFault>
    ensures nodes { OnOk result (nodes.new
        ≡ with_more nodes.old (folded (gate_of gate) none (map (turned turn) bits.now) (next_of nodes.old))) }
    ensures edges { IfOk result (λ edge. edge ∷ []
        ≡ (folded (gate_of gate) none (map (turned turn) bits.now) (next_of nodes.old)).edges) }
    ensures fault { IfErr result (Excuses (after (next_of nodes.old)
        (folded (gate_of gate) none (map (turned turn) bits.now) (next_of nodes.old)))) }
{
    match bits {
        [] => Ok(none),
        [first, others @ ..] => Ok(fold_from(nodes, gate, turn, turned(turn, *first), others)?),
    }
}

/// Whether all bits are 1.
#[tactic(auto, using(crate::proofs::TurnLemmas::as_they_are))]
pub fn all_bits(nodes: &mut Nodes, bits: &[Edge]) -> Result<Edge, FlatFault>
    ensures nodes { OnOk result (nodes.new ≡ with_more nodes.old (all_bits bits.now (next_of nodes.old))) }
    ensures edges { IfOk result (λ edge. edge ∷ [] ≡ (all_bits bits.now (next_of nodes.old)).edges) }
    ensures fault { IfErr result (Excuses (after (next_of nodes.old) (all_bits bits.now (next_of nodes.old)))) }
{
    Ok(fold(nodes, Gate::And, Edge::constant(true), false, bits)?)
}

/// Whether some bit is 1.
pub fn any_bit(nodes: &mut Nodes, bits: &[Edge]) -> Result<Edge, FlatFault>
    ensures nodes { OnOk result (nodes.new ≡ with_more nodes.old (any_bit bits.now (next_of nodes.old))) }
    ensures edges { IfOk result (λ edge. edge ∷ [] ≡ (any_bit bits.now (next_of nodes.old)).edges) }
    ensures fault { IfErr result (Excuses (after (next_of nodes.old) (any_bit bits.now (next_of nodes.old)))) }
{
    let none = no_bit(nodes, bits)?;
    Ok(none.negated())
}

/// Whether no bit is 1.
pub(crate) fn no_bit(nodes: &mut Nodes, bits: &[Edge]) -> Result<Edge, FlatFault>
    ensures nodes { OnOk result (nodes.new ≡ with_more nodes.old (no_bit bits.now (next_of nodes.old))) }
    ensures edges { IfOk result (λ edge. edge ∷ [] ≡ (no_bit bits.now (next_of nodes.old)).edges) }
    ensures fault { IfErr result (Excuses (after (next_of nodes.old) (no_bit bits.now (next_of nodes.old)))) }
{
    Ok(fold(nodes, Gate::And, Edge::constant(true), true, bits)?)
}

/// Whether an odd number of bits is 1.
#[tactic(auto, using(crate::proofs::TurnLemmas::as_they_are))]
pub fn parity(nodes: &mut Nodes, bits: &[Edge]) -> Result<Edge, FlatFault>
    ensures nodes { OnOk result (nodes.new ≡ with_more nodes.old (parity bits.now (next_of nodes.old))) }
    ensures edges { IfOk result (λ edge. edge ∷ [] ≡ (parity bits.now (next_of nodes.old)).edges) }
    ensures fault { IfErr result (Excuses (after (next_of nodes.old) (parity bits.now (next_of nodes.old)))) }
{
    Ok(fold(nodes, Gate::Xor, Edge::constant(false), false, bits)?)
}

// ---- choices

/// The first edge where the choice is 1, and else the second: three nodes.
pub fn choose(nodes: &mut Nodes, choice: Edge, first: Edge, second: Edge) -> Result<Edge, FlatFault>
    ensures nodes { OnOk result (nodes.new ≡ with_more nodes.old (chosen choice first second (next_of nodes.old))) }
    ensures edges { IfOk result (λ edge. edge ∷ [] ≡ (chosen choice first second (next_of nodes.old)).edges) }
    ensures fault { IfErr result (Excuses (after (next_of nodes.old)
        (chosen choice first second (next_of nodes.old)))) }
{
    let first = nodes.push(Node::And(choice, first))?;
    let second = nodes.push(Node::And(choice.negated(), second))?;
    let neither = nodes.push(Node::And(first.negated(), second.negated()))?;
    Ok(neither.negated())
}
