//! What operators stand between: numbers, names, and expressions in parentheses and braces.
ghost use Rattle.std.specs.Prelude.{◌≡◌, ◌<◌, length, OnOk};
ghost use Rattle.vlog_tree.specs.Spelling.Exprs.{named};
ghost use Rattle.vlog_parse.specs.Exprs as spec;
ghost use Rattle.vlog_parse.specs.Nests.{Nests};
ghost use Rattle.vlog_parse.specs.Reads.{Reads, ReadsToken, separated};
ghost use Rattle.vlog_parse.specs.Selects.{select_of};

use crate::cursor::Cursor;
use crate::expr::Grammar;
use crate::list::separated;
use crate::number::number;
use crate::select::{Selection, select};
use bm_base::Name;
use sqlite_items::Items;
use std::alloc::Global;
use vlog_numbers::{Fault, is_size};
use vlog_tokens::Token;
use vlog_tree::Expr;

#[tactic(auto, unfolding(crate::specs::Exprs::literal))]
fn literal(alloc: Global, cursor: &mut Cursor<'_, '_>) -> Result<Expr, Fault>
    ensures reads { Reads (spec.literal cursor.old) result cursor.new }
    ensures consumes { OnOk result (length cursor.new < length cursor.old) }
{
    let at = cursor.place();
    let bits = number(alloc, cursor)?;
    Ok(Expr::Number { at, bits })
}

/// A name, with one bit or a part of it.
#[tactic(auto, unfolding(crate::specs::Exprs::reference))]
fn reference(alloc: Global, cursor: &mut Cursor<'_, '_>) -> Result<Expr, Fault>
    ensures reads { Reads (spec.reference cursor.old) result cursor.new }
    ensures consumes { OnOk result (length cursor.new < length cursor.old) }
{
    let at = cursor.place();
    let name = cursor.name(alloc)?;
    let taken = select(cursor)?;
    Ok(named(taken, at, name))
}

fn named(taken: Selection, at: u64, name: Name) -> Expr
    ensures { result ≡ named (select_of taken) at name }
{
    match taken {
        Selection::Whole => Expr::Whole { at, name },
        Selection::Bit(index) => Expr::Bit { at, name, index },
        Selection::Part(range) => Expr::Part { at, name, range },
    }
}

// The second brace of a replication. A decimal may be a number by itself, so one outside the bounds of a count does not
// fit here.
#[tactic(auto, unfolding(crate::specs::Exprs::inner_brace))]
fn inner_brace<'a>(cursor: &mut Cursor<'_, 'a>, count: u32) -> Result<Token<'a>, Fault>
    ensures reads { ReadsToken (spec.inner_brace count cursor.old) result cursor.new }
    ensures consumes { OnOk result (length cursor.new < length cursor.old) }
{
    if is_size(count) {
        cursor.expect("{")
    } else {
        Err(Fault::Token)
    }
}

impl<F: Fn(Global, &mut Cursor<'_, '_>, usize) -> Result<Expr, Fault>> Grammar<F> {
    #[tactic(auto, unfolding(crate::specs::Exprs::primary))]
    pub fn primary(&self, cursor: &mut Cursor<'_, '_>) -> Result<Expr, Fault>
        requires { Nests self.now.depth (F.pre self.now.expr) (F.post self.now.expr) }
        ensures reads { Reads (spec.primary (spec.expr self.now.depth) cursor.old) result cursor.new }
        ensures consumes { OnOk result (length cursor.new < length cursor.old) }
    {
        if cursor.sees("(") {
            self.parentheses(cursor)
        } else if cursor.sees("{") {
            self.braces(cursor)
        } else if cursor.sees_name() {
            reference(self.alloc, cursor)
        } else {
            literal(self.alloc, cursor)
        }
    }

    #[tactic(auto, unfolding(crate::specs::Exprs::parentheses))]
    fn parentheses(&self, cursor: &mut Cursor<'_, '_>) -> Result<Expr, Fault>
        requires { Nests self.now.depth (F.pre self.now.expr) (F.post self.now.expr) }
        ensures reads { Reads (spec.parentheses (spec.expr self.now.depth) cursor.old) result cursor.new }
        ensures consumes { OnOk result (length cursor.new < length cursor.old) }
    {
        cursor.expect("(")?;
        let inside = self.inner(cursor)?;
        cursor.expect(")")?;
        Ok(inside)
    }

    #[tactic(auto, unfolding(crate::specs::Exprs::braces))]
    fn braces(&self, cursor: &mut Cursor<'_, '_>) -> Result<Expr, Fault>
        requires { Nests self.now.depth (F.pre self.now.expr) (F.post self.now.expr) }
        ensures reads { Reads (spec.braces (spec.expr self.now.depth) cursor.old) result cursor.new }
        ensures consumes { OnOk result (length cursor.new < length cursor.old) }
    {
        cursor.expect("{")?;
        if cursor.sees_decimal_before("{") {
            self.repeat(cursor)
        } else {
            self.join(cursor)
        }
    }

    /// What follows the opening brace of a concatenation.
    #[tactic(auto, unfolding(crate::specs::Exprs::join))]
    fn join(&self, cursor: &mut Cursor<'_, '_>) -> Result<Expr, Fault>
        requires { Nests self.now.depth (F.pre self.now.expr) (F.post self.now.expr) }
        ensures reads { Reads (spec.join (spec.expr self.now.depth) cursor.old) result cursor.new }
        ensures consumes { OnOk result (length cursor.new < length cursor.old) }
    {
        let parts = self.parts(cursor)?;
        cursor.expect("}")?;
        Ok(Expr::Join(parts))
    }

    /// What follows the opening brace of a replication.
    #[tactic(auto, unfolding(crate::specs::Exprs::repeat))]
    fn repeat(&self, cursor: &mut Cursor<'_, '_>) -> Result<Expr, Fault>
        requires { Nests self.now.depth (F.pre self.now.expr) (F.post self.now.expr) }
        ensures reads { Reads (spec.repeat (spec.expr self.now.depth) cursor.old) result cursor.new }
        ensures consumes { OnOk result (length cursor.new < length cursor.old) }
    {
        let count = cursor.decimal()?;
        inner_brace(cursor, count)?;
        let parts = self.parts(cursor)?;
        cursor.expect("}")?;
        cursor.expect("}")?;
        Ok(Expr::Repeat { count, parts })
    }

    /// Expressions with commas between.
    fn parts(&self, cursor: &mut Cursor<'_, '_>) -> Result<Items<Expr>, Fault>
        requires { Nests self.now.depth (F.pre self.now.expr) (F.post self.now.expr) }
        ensures reads { Reads (separated (spec.expr self.now.depth) cursor.old) result cursor.new }
        ensures consumes { OnOk result (length cursor.new < length cursor.old) }
    {
        separated(
            self.alloc,
            cursor,
            |cursor: &mut Cursor<'_, '_>| self.inner(cursor),
        )
    }
}
