//! What stands after a name that is read or assigned.
ghost use Rattle.std.specs.Prelude.{◌<◌, ◌≤◌, length, OnOk};
ghost use Rattle.vlog_parse.specs.Reads.{Reads};
ghost use Rattle.vlog_parse.specs.Selects as spec;

use crate::cursor::Cursor;
use bm_base::Range;
use vlog_numbers::Fault;

/// How much of a name is taken.
#[derive(Clone, Copy, Debug, PartialEq, Eq)]
pub enum Selection {
    /// All of it.
    Whole,
    /// The bit with this index.
    Bit(u32),
    Part(Range),
}

/// One bit or a part in brackets, or nothing.
#[tactic(auto, unfolding(crate::specs::Selects::select, crate::specs::Selects::bracketed))]
pub fn select(cursor: &mut Cursor<'_, '_>) -> Result<Selection, Fault>
    ensures reads { Reads (spec.select cursor.old) result cursor.new }
    ensures shrinks { OnOk result (length cursor.new ≤ length cursor.old) }
{
    if !cursor.sees("[") {
        return Ok(Selection::Whole);
    }
    cursor.expect("[")?;
    let first = cursor.decimal()?;
    select_after(cursor, first)
}

#[tactic(auto, unfolding(crate::specs::Selects::select_after, crate::specs::Selects::part_after, crate::specs::Selects::bit_after))]
fn select_after(cursor: &mut Cursor<'_, '_>, first: u32) -> Result<Selection, Fault>
    ensures reads { Reads (spec.select_after first cursor.old) result cursor.new }
    ensures shrinks { OnOk result (length cursor.new ≤ length cursor.old) }
{
    if cursor.sees(":") {
        return Ok(Selection::Part(range_after(cursor, first)?));
    }
    cursor.expect("]")?;
    Ok(Selection::Bit(first))
}

/// The range of a declaration, in brackets.
#[tactic(auto, unfolding(crate::specs::Selects::range))]
pub fn range(cursor: &mut Cursor<'_, '_>) -> Result<Range, Fault>
    ensures reads { Reads (spec.range cursor.old) result cursor.new }
    ensures consumes { OnOk result (length cursor.new < length cursor.old) }
{
    cursor.expect("[")?;
    let left = cursor.decimal()?;
    range_after(cursor, left)
}

#[tactic(auto, unfolding(crate::specs::Selects::range_after))]
fn range_after(cursor: &mut Cursor<'_, '_>, left: u32) -> Result<Range, Fault>
    ensures reads { Reads (spec.range_after left cursor.old) result cursor.new }
    ensures consumes { OnOk result (length cursor.new < length cursor.old) }
{
    cursor.expect(":")?;
    let right = cursor.decimal()?;
    cursor.expect("]")?;
    Ok(Range { left, right })
}
