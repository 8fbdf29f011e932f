//! Unary operators before an operand, and binary operators between operands.
ghost use Rattle.std.specs.Prelude.{◌≡◌, ◌<◌, ◌≤◌, length, IfOk, OnOk};
ghost use Rattle.vlog_parse.specs.Chains as spec;
ghost use Rattle.vlog_parse.specs.Reads as reads;
ghost use Rattle.vlog_parse.specs.Reads.{Parser, Reads, ReadsInto};
ghost use Rattle.vlog_parse.specs.Rules.{IsReader, IsRule};

use crate::cursor::Cursor;
use crate::operator::{binary_operator, unary_operator};
use sqlite_items::{Boxed, Items};
use std::alloc::{AllocError, Global};
use vlog_numbers::Fault;
use vlog_tree::{BinOp, Expr, UnOp};

/// Any number of unary operators.
#[tactic(auto, unfolding(crate::specs::Chains::unary_operators))]
pub fn unary_operators(alloc: Global, cursor: &mut Cursor<'_, '_>) -> Result<Items<UnOp>, Fault>
    ensures reads { Reads (spec.unary_operators cursor.old) result cursor.new }
    ensures shrinks { OnOk result (length cursor.new ≤ length cursor.old) }
{
    let mut found = Items::new(alloc);
    while sees_unary(cursor) {
        one_more_unary(cursor, &mut found)?;
    }
    Ok(found)
}

fn sees_unary(cursor: &Cursor<'_, '_>) -> bool
    ensures { result ≡ spec.sees_unary cursor.now }
{
    unary_operator(cursor.terminal()).is_some()
}

#[tactic(auto, unfolding(crate::specs::Reads::one_more))]
fn one_more_unary(cursor: &mut Cursor<'_, '_>, found: &mut Items<UnOp>) -> Result<(), Fault>
    ensures reads { ReadsInto (reads.one_more spec.one_unary found.old cursor.old) result found.new cursor.new }
    ensures consumes { OnOk result (length cursor.new < length cursor.old) }
{
    let next = one_unary(cursor)?;
    found.push(next)?;
    Ok(())
}

#[tactic(auto, unfolding(crate::specs::Reads::take_if, crate::specs::Chains::one_unary))]
fn one_unary(cursor: &mut Cursor<'_, '_>) -> Result<UnOp, Fault>
    ensures reads { Reads (spec.one_unary cursor.old) result cursor.new }
    ensures consumes { OnOk result (length cursor.new < length cursor.old) }
{
    let Some(op) = unary_operator(cursor.terminal()) else {
        return Err(Fault::Token);
    };
    cursor.skip();
    Ok(op)
}

/// The operand with these operators before it.
pub fn wrap(alloc: Global, mut ops: Items<UnOp>, operand: Expr) -> Result<Expr, AllocError>
    ensures { IfOk result (λ e. e ≡ spec.wrap ops operand) }
{
    let mut whole = operand;
    while let Some(op) = ops.pop() {
        whole = Expr::Unary {
            op,
            arg: Boxed::new(alloc, whole)?,
        };
    }
    Ok(whole)
}

/// Operands with binary operators of one level between, grouped to the left.
#[tactic(auto, unfolding(crate::specs::Chains::chain))]
pub fn chain<F: Fn(&mut Cursor<'_, '_>) -> Result<Expr, Fault>>(
    alloc: Global,
    cursor: &mut Cursor<'_, '_>,
    level: u8,
    operand: F,
) -> Result<Expr, Fault>
    requires { IsReader (F.pre operand) (F.post operand) }
    ensures reads { (rule : Parser Expr) → IsRule rule (F.post operand)
        → Reads (spec.chain level rule cursor.old) result cursor.new }
    ensures consumes { OnOk result (length cursor.new < length cursor.old) }
{
    let mut whole = operand(cursor)?;
    while sees_binary(cursor, level) {
        whole = operation(alloc, cursor, level, &operand, whole)?;
    }
    Ok(whole)
}

fn sees_binary(cursor: &Cursor<'_, '_>, level: u8) -> bool
    ensures { result ≡ spec.sees_binary level cursor.now }
{
    binary_operator(cursor.terminal(), level).is_some()
}

#[tactic(auto, unfolding(crate::specs::Chains::operation))]
fn operation<F: Fn(&mut Cursor<'_, '_>) -> Result<Expr, Fault>>(
    alloc: Global,
    cursor: &mut Cursor<'_, '_>,
    level: u8,
    operand: &F,
    left: Expr,
) -> Result<Expr, Fault>
    requires { IsReader (F.pre operand.now) (F.post operand.now) }
    ensures reads { (rule : Parser Expr) → IsRule rule (F.post operand.now)
        → Reads (spec.operation level rule left cursor.old) result cursor.new }
    ensures consumes { OnOk result (length cursor.new < length cursor.old) }
{
    let op = one_binary(cursor, level)?;
    let right = operand(cursor)?;
    Ok(Expr::Binary {
        op,
        left: Boxed::new(alloc, left)?,
        right: Boxed::new(alloc, right)?,
    })
}

#[tactic(auto, unfolding(crate::specs::Reads::take_if, crate::specs::Chains::one_binary))]
fn one_binary(cursor: &mut Cursor<'_, '_>, level: u8) -> Result<BinOp, Fault>
    ensures reads { Reads (spec.one_binary level cursor.old) result cursor.new }
    ensures consumes { OnOk result (length cursor.new < length cursor.old) }
{
    let Some(op) = binary_operator(cursor.terminal(), level) else {
        return Err(Fault::Token);
    };
    cursor.skip();
    Ok(op)
}
