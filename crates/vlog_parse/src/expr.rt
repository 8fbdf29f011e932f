//! Expressions (IEEE 1364-2005, clause 5), level by level.
ghost use Rattle.std.specs.Prelude.{◌<◌, length, OnOk};
ghost use Rattle.vlog_parse.specs.Exprs as spec;
ghost use Rattle.vlog_parse.specs.Nests.{Nests};
ghost use Rattle.vlog_parse.specs.Reads.{Reads};

use crate::chain::{chain, unary_operators, wrap};
use crate::cursor::Cursor;
use sqlite_items::Boxed;
use std::alloc::Global;
use vlog_numbers::Fault;
use vlog_tree::Expr;

/// The rules of one level of nesting, which take the function that reads the expressions inside as a parameter.
#[derive(Clone, Copy)]
pub struct Grammar<F> {
    pub alloc: Global,
    /// How deep expressions may still nest.
    pub depth: usize,
    pub expr: F,
}

/// An expression in which expressions nest less deep than `depth`.
pub fn expr(alloc: Global, cursor: &mut Cursor<'_, '_>, depth: usize) -> Result<Expr, Fault>
    ensures reads { Reads (spec.expr depth cursor.old) result cursor.new }
    ensures consumes { OnOk result (length cursor.new < length cursor.old) }
{
    if depth == 0 {
        return Err(Fault::Token);
    }
    Grammar {
        alloc,
        depth: depth - 1,
        expr,
    }
    .conditional(cursor)
}

impl<F: Fn(Global, &mut Cursor<'_, '_>, usize) -> Result<Expr, Fault>> Grammar<F> {
    /// An expression that stands inside.
    pub fn inner(&self, cursor: &mut Cursor<'_, '_>) -> Result<Expr, Fault>
        requires { Nests self.now.depth (F.pre self.now.expr) (F.post self.now.expr) }
        ensures reads { Reads (spec.expr self.now.depth cursor.old) result cursor.new }
        ensures consumes { OnOk result (length cursor.new < length cursor.old) }
    {
        (self.expr)(self.alloc, cursor, self.depth)
    }

    #[tactic(auto, unfolding(crate::specs::Exprs::conditional))]
    fn conditional(&self, cursor: &mut Cursor<'_, '_>) -> Result<Expr, Fault>
        requires { Nests self.now.depth (F.pre self.now.expr) (F.post self.now.expr) }
        ensures reads { Reads (spec.conditional (spec.expr self.now.depth) cursor.old) result cursor.new }
        ensures consumes { OnOk result (length cursor.new < length cursor.old) }
    {
        let cond = self.logical_or(cursor)?;
        if cursor.sees("?") {
            self.choice(cursor, cond)
        } else {
            Ok(cond)
        }
    }

    #[tactic(auto, unfolding(crate::specs::Exprs::choice))]
    fn choice(&self, cursor: &mut Cursor<'_, '_>, cond: Expr) -> Result<Expr, Fault>
        requires { Nests self.now.depth (F.pre self.now.expr) (F.post self.now.expr) }
        ensures reads { Reads (spec.choice (spec.expr self.now.depth) cond cursor.old) result cursor.new }
        ensures consumes { OnOk result (length cursor.new < length cursor.old) }
    {
        cursor.expect("?")?;
        let first = self.inner(cursor)?;
        cursor.expect(":")?;
        let second = self.inner(cursor)?;
        Ok(Expr::Cond {
            cond: Boxed::new(self.alloc, cond)?,
            yes: Boxed::new(self.alloc, first)?,
            no: Boxed::new(self.alloc, second)?,
        })
    }

    fn logical_or(&self, cursor: &mut Cursor<'_, '_>) -> Result<Expr, Fault>
        requires { Nests self.now.depth (F.pre self.now.expr) (F.post self.now.expr) }
        ensures reads { Reads (spec.level (spec.expr self.now.depth) 6 cursor.old) result cursor.new }
        ensures consumes { OnOk result (length cursor.new < length cursor.old) }
    {
        chain(
            self.alloc,
            cursor,
            6,
            |cursor: &mut Cursor<'_, '_>| self.logical_and(cursor),
        )
    }

    fn logical_and(&self, cursor: &mut Cursor<'_, '_>) -> Result<Expr, Fault>
        requires { Nests self.now.depth (F.pre self.now.expr) (F.post self.now.expr) }
        ensures reads { Reads (spec.level (spec.expr self.now.depth) 5 cursor.old) result cursor.new }
        ensures consumes { OnOk result (length cursor.new < length cursor.old) }
    {
        chain(
            self.alloc,
            cursor,
            5,
            |cursor: &mut Cursor<'_, '_>| self.or(cursor),
        )
    }

    fn or(&self, cursor: &mut Cursor<'_, '_>) -> Result<Expr, Fault>
        requires { Nests self.now.depth (F.pre self.now.expr) (F.post self.now.expr) }
        ensures reads { Reads (spec.level (spec.expr self.now.depth) 4 cursor.old) result cursor.new }
        ensures consumes { OnOk result (length cursor.new < length cursor.old) }
    {
        chain(
            self.alloc,
            cursor,
            4,
            |cursor: &mut Cursor<'_, '_>| self.xor(cursor),
        )
    }

    fn xor(&self, cursor: &mut Cursor<'_, '_>) -> Result<Expr, Fault>
        requires { Nests self.now.depth (F.pre self.now.expr) (F.post self.now.expr) }
        ensures reads { Reads (spec.level (spec.expr self.now.depth) 3 cursor.old) result cursor.new }
        ensures consumes { OnOk result (length cursor.new < length cursor.old) }
    {
        chain(
            self.alloc,
            cursor,
            3,
            |cursor: &mut Cursor<'_, '_>| self.and(cursor),
        )
    }

    fn and(&self, cursor: &mut Cursor<'_, '_>) -> Result<Expr, Fault>
        requires { Nests self.now.depth (F.pre self.now.expr) (F.post self.now.expr) }
        ensures reads { Reads (spec.level (spec.expr self.now.depth) 2 cursor.old) result cursor.new }
        ensures consumes { OnOk result (length cursor.new < length cursor.old) }
    {
        chain(
            self.alloc,
            cursor,
            2,
            |cursor: &mut Cursor<'_, '_>| self.equality(cursor),
        )
    }

    fn equality(&self, cursor: &mut Cursor<'_, '_>) -> Result<Expr, Fault>
        requires { Nests self.now.depth (F.pre self.now.expr) (F.post self.now.expr) }
        ensures reads { Reads (spec.level (spec.expr self.now.depth) 1 cursor.old) result cursor.new }
        ensures consumes { OnOk result (length cursor.new < length cursor.old) }
    {
        chain(
            self.alloc,
            cursor,
            1,
            |cursor: &mut Cursor<'_, '_>| self.unary(cursor),
        )
    }

    #[tactic(auto, unfolding(crate::specs::Exprs::unary))]
    fn unary(&self, cursor: &mut Cursor<'_, '_>) -> Result<Expr, Fault>
        requires { Nests self.now.depth (F.pre self.now.expr) (F.post self.now.expr) }
        ensures reads { Reads (spec.unary (spec.expr self.now.depth) cursor.old) result cursor.new }
        ensures consumes { OnOk result (length cursor.new < length cursor.old) }
    {
        let operators = unary_operators(self.alloc, cursor)?;
        let operand = self.primary(cursor)?;
        Ok(wrap(self.alloc, operators, operand)?)
    }
}
