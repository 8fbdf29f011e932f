//! Lists of the grammar, each item of which is read by one rule.

ghost use Rattle.std.specs.Prelude.{◌<◌, ◌≤◌, length, OnOk};
ghost use Rattle.vlog_parse.specs.Reads as spec;
ghost use Rattle.vlog_parse.specs.Reads.{Parser, Reads, ReadsInto};
ghost use Rattle.vlog_parse.specs.Rules.{IsReader, IsRule};

use crate::cursor::Cursor;
use sqlite_items::Items;
use std::alloc::Global;
use vlog_numbers::Fault;

/// One or more, with commas between.
#[tactic(auto, unfolding(crate::specs::Reads::separated))]
pub fn separated<T: Drop, F: Fn(&mut Cursor<'_, '_>) -> Result<T, Fault>>(
    alloc: Global,
    cursor: &mut Cursor<'_, '_>,
    item: F,
) -> Result<Items<T>, Fault>
    requires { IsReader (F.pre item) (F.post item) }
    ensures reads { (rule : Parser T) → IsRule rule (F.post item)
        → Reads (spec.separated rule cursor.old) result cursor.new }
    ensures consumes { OnOk result (length cursor.new < length cursor.old) }
{
    let mut found = Items::new(alloc);
    one_more(cursor, &item, &mut found)?;
    while cursor.sees(",") {
        one_more_after_comma(cursor, &item, &mut found)?;
    }
    Ok(found)
}

/// Any number, up to this reserved word or mark, which is left.
#[tactic(auto, unfolding(crate::specs::Reads::repeated_until))]
pub fn repeated_until<T: Drop, F: Fn(&mut Cursor<'_, '_>) -> Result<T, Fault>>(
    alloc: Global,
    cursor: &mut Cursor<'_, '_>,
    stop: &str,
    item: F,
) -> Result<Items<T>, Fault>
    requires { IsReader (F.pre item) (F.post item) }
    ensures reads { (rule : Parser T) → IsRule rule (F.post item)
        → Reads (spec.repeated_until stop.now rule cursor.old) result cursor.new }
    ensures shrinks { OnOk result (length cursor.new ≤ length cursor.old) }
{
    let mut found = Items::new(alloc);
    while !cursor.sees(stop) {
        one_more(cursor, &item, &mut found)?;
    }
    Ok(found)
}

#[tactic(auto, unfolding(crate::specs::Reads::one_more_after_comma))]
fn one_more_after_comma<T: Drop, F: Fn(&mut Cursor<'_, '_>) -> Result<T, Fault>>(
    cursor: &mut Cursor<'_, '_>,
    item: &F,
    found: &mut Items<T>,
) -> Result<(), Fault>
    requires { IsReader (F.pre item.now) (F.post item.now) }
    ensures reads { (rule : Parser T) → IsRule rule (F.post item.now)
        → ReadsInto (spec.one_more_after_comma rule found.old cursor.old) result found.new cursor.new }
    ensures consumes { OnOk result (length cursor.new < length cursor.old) }
{
    cursor.expect(",")?;
    one_more(cursor, item, found)
}

#[tactic(auto, unfolding(crate::specs::Reads::one_more))]
fn one_more<T: Drop, F: Fn(&mut Cursor<'_, '_>) -> Result<T, Fault>>(
    cursor: &mut Cursor<'_, '_>,
    item: &F,
    found: &mut Items<T>,
) -> Result<(), Fault>
    requires { IsReader (F.pre item.now) (F.post item.now) }
    ensures reads { (rule : Parser T) → IsRule rule (F.post item.now)
        → ReadsInto (spec.one_more rule found.old cursor.old) result found.new cursor.new }
    ensures consumes { OnOk result (length cursor.new < length cursor.old) }
{
    let next = item(cursor)?;
    found.push(next)?;
    Ok(())
}
