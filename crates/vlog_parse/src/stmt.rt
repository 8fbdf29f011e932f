//! Statements (IEEE 1364-2005, clause 9).

ghost use Rattle.std.specs.Prelude.{◌<◌, ◌≤◌, length, OnOk};
ghost use Rattle.vlog_parse.specs.Reads.{Parser, Reads};
ghost use Rattle.vlog_parse.specs.Rules.{IsReader, IsRule};
ghost use Rattle.vlog_parse.specs.Stmts as spec;
ghost use Rattle.vlog_tree.specs.declared.stmt.Stmt as tree;

use crate::cursor::Cursor;
use crate::delay::any_delay;
use crate::expr::expr;
use crate::left::left;
use crate::list::repeated_until;
use sqlite_items::Boxed;
use std::alloc::Global;
use vlog_numbers::Fault;
use vlog_tree::Stmt;

/// A statement in which statements nest less deep than `depth`.
#[tactic(auto, unfolding(crate::specs::Stmts::stmt))]
pub fn stmt(alloc: Global, cursor: &mut Cursor<'_, '_>, depth: usize) -> Result<Stmt, Fault>
    ensures reads { Reads (spec.stmt depth cursor.old) result cursor.new }
    ensures consumes { OnOk result (length cursor.new < length cursor.old) }
{
    if depth == 0 {
        return Err(Fault::Token);
    }
    let below = depth - 1;
    statement(
        alloc,
        cursor,
        below,
        |cursor: &mut Cursor<'_, '_>| -> Result<Stmt, Fault>
            ensures reads { Reads (spec.stmt below cursor.old) result cursor.new }
            ensures consumes { OnOk result (length cursor.new < length cursor.old) }
        { stmt(alloc, cursor, below) },
    )
}

#[tactic(auto, unfolding(crate::specs::Stmts::statement))]
fn statement<F: Fn(&mut Cursor<'_, '_>) -> Result<Stmt, Fault>>(
    alloc: Global,
    cursor: &mut Cursor<'_, '_>,
    depth: usize,
    inner: F,
) -> Result<Stmt, Fault>
    requires { IsReader (F.pre inner) (F.post inner) }
    ensures reads { (rule : Parser tree.Stmt) → IsRule rule (F.post inner)
        → Reads (spec.statement rule depth cursor.old) result cursor.new }
    ensures consumes { OnOk result (length cursor.new < length cursor.old) }
{
    if cursor.sees(";") {
        empty(cursor)
    } else if cursor.sees("begin") {
        block(alloc, cursor, inner)
    } else if cursor.sees("if") {
        choice(alloc, cursor, depth, inner)
    } else {
        set(alloc, cursor, depth)
    }
}

#[tactic(auto, unfolding(crate::specs::Stmts::empty))]
fn empty(cursor: &mut Cursor<'_, '_>) -> Result<Stmt, Fault>
    ensures reads { Reads (spec.empty cursor.old) result cursor.new }
    ensures consumes { OnOk result (length cursor.new < length cursor.old) }
{
    cursor.expect(";")?;
    Ok(Stmt::Empty)
}

#[tactic(auto, unfolding(crate::specs::Stmts::block))]
fn block<F: Fn(&mut Cursor<'_, '_>) -> Result<Stmt, Fault>>(
    alloc: Global,
    cursor: &mut Cursor<'_, '_>,
    inner: F,
) -> Result<Stmt, Fault>
    requires { IsReader (F.pre inner) (F.post inner) }
    ensures reads { (rule : Parser tree.Stmt) → IsRule rule (F.post inner)
        → Reads (spec.block rule cursor.old) result cursor.new }
    ensures consumes { OnOk result (length cursor.new < length cursor.old) }
{
    cursor.expect("begin")?;
    let stmts = repeated_until(alloc, cursor, "end", inner)?;
    cursor.expect("end")?;
    Ok(Stmt::Block(stmts))
}

#[tactic(auto, unfolding(crate::specs::Stmts::choice))]
fn choice<F: Fn(&mut Cursor<'_, '_>) -> Result<Stmt, Fault>>(
    alloc: Global,
    cursor: &mut Cursor<'_, '_>,
    depth: usize,
    inner: F,
) -> Result<Stmt, Fault>
    requires { IsReader (F.pre inner) (F.post inner) }
    ensures reads { (rule : Parser tree.Stmt) → IsRule rule (F.post inner)
        → Reads (spec.choice rule depth cursor.old) result cursor.new }
    ensures consumes { OnOk result (length cursor.new < length cursor.old) }
{
    cursor.expect("if")?;
    cursor.expect("(")?;
    let cond = expr(alloc, cursor, depth)?;
    cursor.expect(")")?;
    let first = Boxed::new(alloc, inner(cursor)?)?;
    let other = otherwise(alloc, cursor, inner)?;
    Ok(Stmt::If { cond, first, other })
}

/// What an `else` that follows leads to. It belongs to the `if` that was read last.
#[tactic(auto, unfolding(crate::specs::Stmts::otherwise, crate::specs::Stmts::after_else))]
fn otherwise<F: Fn(&mut Cursor<'_, '_>) -> Result<Stmt, Fault>>(
    alloc: Global,
    cursor: &mut Cursor<'_, '_>,
    inner: F,
) -> Result<Option<Boxed<Stmt>>, Fault>
    requires { IsReader (F.pre inner) (F.post inner) }
    ensures reads { (rule : Parser tree.Stmt) → IsRule rule (F.post inner)
        → Reads (spec.otherwise rule cursor.old) result cursor.new }
    ensures shrinks { OnOk result (length cursor.new ≤ length cursor.old) }
{
    if !cursor.sees("else") {
        return Ok(None);
    }
    cursor.expect("else")?;
    let other = inner(cursor)?;
    Ok(Some(Boxed::new(alloc, other)?))
}

#[tactic(auto, unfolding(crate::specs::Stmts::set))]
fn set(alloc: Global, cursor: &mut Cursor<'_, '_>, depth: usize) -> Result<Stmt, Fault>
    ensures reads { Reads (spec.set depth cursor.old) result cursor.new }
    ensures consumes { OnOk result (length cursor.new < length cursor.old) }
{
    let at = cursor.place();
    let left = left(alloc, cursor, depth)?;
    cursor.expect("<=")?;
    any_delay(alloc, cursor)?;
    let right = expr(alloc, cursor, depth)?;
    cursor.expect(";")?;
    Ok(Stmt::Set { at, left, right })
}
