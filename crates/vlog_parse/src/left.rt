//! What is assigned (IEEE 1364-2005, clauses 6.1.3 and 9.2).

ghost use Rattle.std.specs.Prelude.{◌≡◌, ◌<◌, length, OnOk};
ghost use Rattle.vlog_parse.specs.Lefts as spec;
ghost use Rattle.vlog_parse.specs.Reads.{Parser, Reads};
ghost use Rattle.vlog_parse.specs.Rules.{IsReader, IsRule};
ghost use Rattle.vlog_parse.specs.Selects.{select_of};
ghost use Rattle.vlog_tree.specs.Spelling.Lefts.{assigned};
ghost use Rattle.vlog_tree.specs.declared.left.Left as tree;

use crate::cursor::Cursor;
use crate::list::separated;
use crate::select::{Selection, select};
use bm_base::Name;
use std::alloc::Global;
use vlog_numbers::Fault;
use vlog_tree::Left;

/// A left side in which braces nest less deep than `depth`.
#[tactic(auto, unfolding(crate::specs::Lefts::left))]
pub fn left(alloc: Global, cursor: &mut Cursor<'_, '_>, depth: usize) -> Result<Left, Fault>
    ensures reads { Reads (spec.left depth cursor.old) result cursor.new }
    ensures consumes { OnOk result (length cursor.new < length cursor.old) }
{
    if depth == 0 {
        return Err(Fault::Token);
    }
    let below = depth - 1;
    target(
        alloc,
        cursor,
        |cursor: &mut Cursor<'_, '_>| -> Result<Left, Fault>
            ensures reads { Reads (spec.left below cursor.old) result cursor.new }
            ensures consumes { OnOk result (length cursor.new < length cursor.old) }
        { left(alloc, cursor, below) },
    )
}

#[tactic(auto, unfolding(crate::specs::Lefts::target))]
fn target<F: Fn(&mut Cursor<'_, '_>) -> Result<Left, Fault>>(
    alloc: Global,
    cursor: &mut Cursor<'_, '_>,
    inner: F,
) -> Result<Left, Fault>
    requires { IsReader (F.pre inner) (F.post inner) }
    ensures reads { (rule : Parser tree.Left) → IsRule rule (F.post inner)
        → Reads (spec.target rule cursor.old) result cursor.new }
    ensures consumes { OnOk result (length cursor.new < length cursor.old) }
{
    if cursor.sees("{") {
        join(alloc, cursor, inner)
    } else {
        named(alloc, cursor)
    }
}

/// Left sides in braces.
#[tactic(auto, unfolding(crate::specs::Lefts::join))]
fn join<F: Fn(&mut Cursor<'_, '_>) -> Result<Left, Fault>>(
    alloc: Global,
    cursor: &mut Cursor<'_, '_>,
    inner: F,
) -> Result<Left, Fault>
    requires { IsReader (F.pre inner) (F.post inner) }
    ensures reads { (rule : Parser tree.Left) → IsRule rule (F.post inner)
        → Reads (spec.join rule cursor.old) result cursor.new }
    ensures consumes { OnOk result (length cursor.new < length cursor.old) }
{
    cursor.expect("{")?;
    let parts = separated(alloc, cursor, inner)?;
    cursor.expect("}")?;
    Ok(Left::Join(parts))
}

/// A name, one bit of it or a part of it.
#[tactic(auto, unfolding(crate::specs::Lefts::named))]
fn named(alloc: Global, cursor: &mut Cursor<'_, '_>) -> Result<Left, Fault>
    ensures reads { Reads (spec.named cursor.old) result cursor.new }
    ensures consumes { OnOk result (length cursor.new < length cursor.old) }
{
    let at = cursor.place();
    let name = cursor.name(alloc)?;
    let found = select(cursor)?;
    Ok(assigned(found, at, name))
}

fn assigned(found: Selection, at: u64, name: Name) -> Left
    ensures { result ≡ assigned (select_of found) at name }
{
    match found {
        Selection::Whole => Left::Whole { at, name },
        Selection::Bit(index) => Left::Bit { at, name, index },
        Selection::Part(range) => Left::Part { at, name, range },
    }
}
