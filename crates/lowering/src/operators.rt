//! Operators over the edges of their operands' bits.
ghost use Rattle.std.specs.Prelude.{◌≡◌, ◌∷◌, [], IfErr, IfOk, OnOk};
ghost use Rattle.flat_net.specs.declared.fault.FlatFault.TheVariants.{Memory};
ghost use Rattle.lowering.specs.Limits.{Excuses, next_of, with_more};
ghost use Rattle.lowering.specs.Lowered.{after, extended};
ghost use Rattle.lowering.specs.Operators.{are_same, binary_of, of_truths, unary_of};

use crate::edges::{all_negated, extended};
use crate::gates::no_bit;
use crate::pairs::{Pairing, pair, pair_all};
use crate::{Nodes, all_bits, any_bit, parity};
use flat_net::{Edge, FlatFault};
use sqlite_items::Items;
use std::alloc::Global;
use vlog_tree::{BinOp, UnOp};

/// Whether no bits differ.
fn are_same(
    alloc: Global,
    nodes: &mut Nodes,
    left: &[Edge],
    right: &[Edge],
) -> Result<Edge, FlatFault>
    ensures nodes { OnOk result (nodes.new
        ≡ with_more nodes.old (are_same left.now right.now (next_of nodes.old))) }
    ensures edges { IfOk result (λ edge. edge ∷ [] ≡ (are_same left.now right.now (next_of nodes.old)).edges) }
    ensures fault { IfErr result (Excuses (after (next_of nodes.old)
        (are_same left.now right.now (next_of nodes.old)))) }
{
    let differences = pair_all(alloc, nodes, Pairing::Xor, left, right)?;
    Ok(no_bit(nodes, differences.as_slice())?)
}

/// What is made of whether each has a bit that is 1.
fn of_truths(
    nodes: &mut Nodes,
    pairing: Pairing,
    left: &[Edge],
    right: &[Edge],
) -> Result<Edge, FlatFault>
    ensures nodes { OnOk result (nodes.new
        ≡ with_more nodes.old (of_truths pairing left.now right.now (next_of nodes.old))) }
    ensures edges { IfOk result (λ edge. edge ∷ []
        ≡ (of_truths pairing left.now right.now (next_of nodes.old)).edges) }
    ensures fault { IfErr result (Excuses (after (next_of nodes.old)
        (of_truths pairing left.now right.now (next_of nodes.old)))) }
{
    let left = any_bit(nodes, left)?;
    let right = any_bit(nodes, right)?;
    Ok(pair(nodes, pairing, left, right)?)
}

// One edge, and zeros above it.
fn one_bit(alloc: Global, edge: Edge, width: usize) -> Result<Items<Edge>, FlatFault>
    ensures edges { IfOk result (λ edges. edges ≡ extended width (edge ∷ [])) }
    ensures fault { IfErr result (λ fault. fault ≡ Memory) }
{
    let mut edges = Items::new(alloc);
    edges.push(edge)?;
    Ok(extended(edges, width)?)
}

/// A unary operator at a width: the edges of its operand's bits are given.
pub(crate) fn unary(
    alloc: Global,
    nodes: &mut Nodes,
    op: UnOp,
    width: usize,
    bits: &[Edge],
) -> Result<Items<Edge>, FlatFault>
    ensures nodes { OnOk result (nodes.new ≡ with_more nodes.old (unary_of op width bits.now (next_of nodes.old))) }
    ensures edges { IfOk result (λ edges. edges ≡ (unary_of op width bits.now (next_of nodes.old)).edges) }
    ensures fault { IfErr result (Excuses (after (next_of nodes.old)
        (unary_of op width bits.now (next_of nodes.old)))) }
{
    match op {
        UnOp::Inv => Ok(all_negated(alloc, bits)?),
        UnOp::RedAnd => {
            let all = all_bits(nodes, bits)?;
            Ok(one_bit(alloc, all, width)?)
        }
        UnOp::RedNand => {
            let all = all_bits(nodes, bits)?;
            Ok(one_bit(alloc, all.negated(), width)?)
        }
        UnOp::RedOr => {
            let any = any_bit(nodes, bits)?;
            Ok(one_bit(alloc, any, width)?)
        }
        UnOp::RedNor | UnOp::Not => {
            let any = any_bit(nodes, bits)?;
            Ok(one_bit(alloc, any.negated(), width)?)
        }
        UnOp::RedXor => {
            let odd = parity(nodes, bits)?;
            Ok(one_bit(alloc, odd, width)?)
        }
        UnOp::RedXnor => {
            let odd = parity(nodes, bits)?;
            Ok(one_bit(alloc, odd.negated(), width)?)
        }
    }
}

/// A binary operator at a width: the edges of its operands' bits are given.
pub(crate) fn binary(
    alloc: Global,
    nodes: &mut Nodes,
    op: BinOp,
    width: usize,
    left: &[Edge],
    right: &[Edge],
) -> Result<Items<Edge>, FlatFault>
    ensures nodes { OnOk result (nodes.new
        ≡ with_more nodes.old (binary_of op width left.now right.now (next_of nodes.old))) }
    ensures edges { IfOk result (λ edges. edges ≡ (binary_of op width left.now right.now (next_of nodes.old)).edges) }
    ensures fault { IfErr result (Excuses (after (next_of nodes.old)
        (binary_of op width left.now right.now (next_of nodes.old)))) }
{
    match op {
        BinOp::And => Ok(pair_all(alloc, nodes, Pairing::And, left, right)?),
        BinOp::Or => Ok(pair_all(alloc, nodes, Pairing::Or, left, right)?),
        BinOp::Xor => Ok(pair_all(alloc, nodes, Pairing::Xor, left, right)?),
        BinOp::Xnor => Ok(pair_all(alloc, nodes, Pairing::Xnor, left, right)?),
        BinOp::LogAnd => {
            let both = of_truths(nodes, Pairing::And, left, right)?;
            Ok(one_bit(alloc, both, width)?)
        }
        BinOp::LogOr => {
            let some = of_truths(nodes, Pairing::Or, left, right)?;
            Ok(one_bit(alloc, some, width)?)
        }
        BinOp::Eq => {
            let same = are_same(alloc, nodes, left, right)?;
            Ok(one_bit(alloc, same, width)?)
        }
        BinOp::Ne => {
            let same = are_same(alloc, nodes, left, right)?;
            Ok(one_bit(alloc, same.negated(), width)?)
        }
    }
}
