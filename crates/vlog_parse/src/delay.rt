//! Delays, which stand for nothing in the tree.

ghost use Rattle.std.specs.Prelude.{◌<◌, ◌≤◌, length, OnOk};
ghost use Rattle.vlog_parse.specs.Delays as spec;
ghost use Rattle.vlog_parse.specs.Reads.{Reads, separated};
ghost use Rattle.vlog_parse.specs.Terminals.{decimal};

use crate::cursor::Cursor;
use crate::list::separated;
use sqlite_items::Items;
use std::alloc::Global;
use vlog_numbers::Fault;

/// A delay, if there is one (IEEE 1364-2005, clause 7.14).
#[tactic(auto, unfolding(crate::specs::Delays::any_delay))]
pub fn any_delay(alloc: Global, cursor: &mut Cursor<'_, '_>) -> Result<(), Fault>
    ensures reads { Reads (spec.any_delay cursor.old) result cursor.new }
    ensures shrinks { OnOk result (length cursor.new ≤ length cursor.old) }
{
    if cursor.sees("#") {
        delay(alloc, cursor)
    } else {
        Ok(())
    }
}

#[tactic(auto, unfolding(crate::specs::Delays::delay, crate::specs::Delays::values))]
fn delay(alloc: Global, cursor: &mut Cursor<'_, '_>) -> Result<(), Fault>
    ensures reads { Reads (spec.delay cursor.old) result cursor.new }
    ensures consumes { OnOk result (length cursor.new < length cursor.old) }
{
    cursor.expect("#")?;
    if cursor.sees("(") {
        several(alloc, cursor)
    } else {
        single(cursor)
    }
}

/// One decimal. A based token after it would be one number with it.
#[tactic(auto, unfolding(crate::specs::Delays::single, crate::specs::Delays::parted))]
fn single(cursor: &mut Cursor<'_, '_>) -> Result<(), Fault>
    ensures reads { Reads (spec.single cursor.old) result cursor.new }
    ensures consumes { OnOk result (length cursor.new < length cursor.old) }
{
    cursor.decimal()?;
    if cursor.sees_based() {
        return Err(Fault::Token);
    }
    Ok(())
}

/// Decimals in parentheses.
#[tactic(auto, unfolding(crate::specs::Delays::several))]
fn several(alloc: Global, cursor: &mut Cursor<'_, '_>) -> Result<(), Fault>
    ensures reads { Reads (spec.several cursor.old) result cursor.new }
    ensures consumes { OnOk result (length cursor.new < length cursor.old) }
{
    cursor.expect("(")?;
    decimals(alloc, cursor)?;
    cursor.expect(")")?;
    Ok(())
}

fn decimals(alloc: Global, cursor: &mut Cursor<'_, '_>) -> Result<Items<u32>, Fault>
    ensures reads { Reads (separated decimal cursor.old) result cursor.new }
    ensures consumes { OnOk result (length cursor.new < length cursor.old) }
{
    separated(
        alloc,
        cursor,
        |cursor: &mut Cursor<'_, '_>| cursor.decimal(),
    )
}
