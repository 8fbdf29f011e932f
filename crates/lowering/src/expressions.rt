//! The nodes and the edges of expressions.
ghost use Rattle.std.specs.Prelude.{◌≡◌, IfErr, IfOk, OnOk};
ghost use Rattle.lowering.specs.Expressions.{assigned, condition, expression, only, width_of};
ghost use Rattle.lowering.specs.Forms.{of_parts, operand_width, operand_widths};
ghost use Rattle.lowering.specs.Limits.{Excuses, next_of, with_more};
ghost use Rattle.lowering.specs.Lowered.{after};

use crate::edges::{add_reversed, constants, extended, repeated, reversed};
use crate::operators::{binary, unary};
use crate::pairs::{Pairing, pair_all};
use crate::selects::{bit, part, whole};
use crate::{Nodes, Scope, any_bit};
use flat_net::{Edge, FlatFault};
use sqlite_items::Items;
use std::alloc::Global;
use vlog_tree::{BinOp, Expr, UnOp, width_by};

// ---- widths

// The width that an expression has by itself, 0 where it has none.
fn width_of<S: Scope>(scope: &S, expr: &Expr) -> usize
    ensures { result ≡ width_of (S.module_of scope.now) expr.now }
{
    width_by(scope.nets(), expr).unwrap_or(0) as usize
}

// The width at which the operand of a unary operator is evaluated.
fn operand_width<S: Scope>(scope: &S, op: UnOp, arg: &Expr, width: usize) -> usize
    ensures { result ≡ operand_width (S.module_of scope.now) op arg.now width }
{
    match op {
        UnOp::Inv => width,
        _ => width_of(scope, arg),
    }
}

// The widths at which both operands of a binary operator are evaluated.
fn operand_widths<S: Scope>(
    scope: &S,
    op: BinOp,
    left: &Expr,
    right: &Expr,
    width: usize,
) -> (usize, usize)
    ensures { result ≡ operand_widths (S.module_of scope.now) op left.now right.now width }
{
    match op {
        BinOp::And | BinOp::Or | BinOp::Xor | BinOp::Xnor => (width, width),
        BinOp::LogAnd | BinOp::LogOr => (width_of(scope, left), width_of(scope, right)),
        BinOp::Eq | BinOp::Ne => {
            let both = width_of(scope, left).max(width_of(scope, right));
            (both, both)
        }
    }
}

// ---- expressions

/// The edges of an expression that is evaluated at a width.
#[cycle(expressions)]
pub fn lower<S: Scope>(
    alloc: Global,
    nodes: &mut Nodes,
    scope: &S,
    expr: &Expr,
    width: usize,
) -> Result<Items<Edge>, FlatFault>
    ensures nodes { OnOk result (nodes.new ≡ with_more nodes.old
        (expression (S.module_of scope.now) (S.wires scope.now) expr.now width (next_of nodes.old))) }
    ensures edges { IfOk result (λ edges. edges
        ≡ (expression (S.module_of scope.now) (S.wires scope.now) expr.now width (next_of nodes.old)).edges) }
    ensures fault { IfErr result (Excuses (after (next_of nodes.old)
        (expression (S.module_of scope.now) (S.wires scope.now) expr.now width (next_of nodes.old)))) }
{
    match expr {
        Expr::Number { bits, .. } => Ok(extended(constants(alloc, bits)?, width)?),
        Expr::Whole { name, .. } => Ok(extended(whole(alloc, scope, name)?, width)?),
        Expr::Bit { name, index, .. } => Ok(extended(bit(alloc, scope, name, *index)?, width)?),
        Expr::Part { name, range, .. } => Ok(extended(part(alloc, scope, name, *range)?, width)?),
        Expr::Unary { op, arg } => {
            let arg = arg.get();
            let bits = lower(
                alloc,
                nodes,
                scope,
                arg,
                operand_width(scope, *op, arg, width),
            )?;
            Ok(unary(alloc, nodes, *op, width, bits.as_slice())?)
        }
        Expr::Binary { op, left, right } => {
            let left = left.get();
            let right = right.get();
            let widths = operand_widths(scope, *op, left, right, width);
            let first = lower(alloc, nodes, scope, left, widths.0)?;
            let second = lower(alloc, nodes, scope, right, widths.1)?;
            Ok(binary(
                alloc,
                nodes,
                *op,
                width,
                first.as_slice(),
                second.as_slice(),
            )?)
        }
        Expr::Cond { cond, yes, no } => {
            let cond = cond.get();
            let bits = lower(alloc, nodes, scope, cond, width_of(scope, cond))?;
            let choice = any_bit(nodes, bits.as_slice())?;
            let yes = yes.get();
            let first = lower(alloc, nodes, scope, yes, width)?;
            let no = no.get();
            let second = lower(alloc, nodes, scope, no, width)?;
            let pairing = Pairing::Choice(choice);
            Ok(pair_all(alloc, nodes, pairing, first.as_slice(), second.as_slice())?)
        }
        Expr::Join(parts) => {
            let edges = lower_parts(alloc, nodes, scope, parts.as_slice())?;
            Ok(extended(edges, width)?)
        }
        Expr::Repeat { count, parts } => {
            let once = lower_parts(alloc, nodes, scope, parts.as_slice())?;
            Ok(extended(repeated(alloc, *count, once.as_slice())?, width)?)
        }
    }
}

// The edges of parts that stand one beside the other, of which the rightmost is the lowest.
#[cycle(expressions)]
fn lower_parts<S: Scope>(
    alloc: Global,
    nodes: &mut Nodes,
    scope: &S,
    parts: &[Expr],
) -> Result<Items<Edge>, FlatFault>
    ensures nodes { OnOk result (nodes.new ≡ with_more nodes.old
        (of_parts (S.module_of scope.now) (S.wires scope.now) parts.now (next_of nodes.old))) }
    ensures edges { IfOk result (λ edges. edges
        ≡ (of_parts (S.module_of scope.now) (S.wires scope.now) parts.now (next_of nodes.old)).edges) }
    ensures fault { IfErr result (Excuses (after (next_of nodes.old)
        (of_parts (S.module_of scope.now) (S.wires scope.now) parts.now (next_of nodes.old)))) }
{
    // From the highest to the lowest.
    let mut edges = Items::new(alloc);
    for part in parts {
        let bits = lower(alloc, nodes, scope, part, width_of(scope, part))?;
        add_reversed(alloc, &mut edges, bits.as_slice())?;
    }
    Ok(reversed(alloc, edges.as_slice())?)
}

/// The edge that is 1 where the expression is true.
pub fn lower_condition<S: Scope>(
    alloc: Global,
    nodes: &mut Nodes,
    scope: &S,
    expr: &Expr,
) -> Result<Edge, FlatFault>
    ensures nodes { OnOk result (nodes.new ≡ with_more nodes.old
        (condition (S.module_of scope.now) (S.wires scope.now) expr.now (next_of nodes.old))) }
    ensures edges { IfOk result (λ edge. edge
        ≡ only (condition (S.module_of scope.now) (S.wires scope.now) expr.now (next_of nodes.old)).edges) }
    ensures fault { IfErr result (Excuses (after (next_of nodes.old)
        (condition (S.module_of scope.now) (S.wires scope.now) expr.now (next_of nodes.old)))) }
{
    let bits = lower(alloc, nodes, scope, expr, width_of(scope, expr))?;
    Ok(any_bit(nodes, bits.as_slice())?)
}

/// The edges of the right side of an assignment to so many bits, which is evaluated at the greater of both widths.
pub fn lower_assigned<S: Scope>(
    alloc: Global,
    nodes: &mut Nodes,
    scope: &S,
    count: usize,
    expr: &Expr,
) -> Result<Items<Edge>, FlatFault>
    ensures nodes { OnOk result (nodes.new ≡ with_more nodes.old
        (assigned (S.module_of scope.now) (S.wires scope.now) count expr.now (next_of nodes.old))) }
    ensures edges { IfOk result (λ edges. edges
        ≡ (assigned (S.module_of scope.now) (S.wires scope.now) count expr.now (next_of nodes.old)).edges) }
    ensures fault { IfErr result (Excuses (after (next_of nodes.old)
        (assigned (S.module_of scope.now) (S.wires scope.now) count expr.now (next_of nodes.old)))) }
{
    let width = count.max(width_of(scope, expr));
    Ok(lower(alloc, nodes, scope, expr, width)?)
}
