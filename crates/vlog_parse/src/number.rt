//! Numbers (IEEE 1364-2005, clause 3.5.1).
ghost use Rattle.std.specs.Prelude.{◌<◌, length, OnOk};
ghost use Rattle.vlog_numbers.specs.Values.{sized_of};
ghost use Rattle.vlog_parse.specs.Numbers as spec;
ghost use Rattle.vlog_parse.specs.Reads.{Reads, take_if};

use crate::cursor::Cursor;
use bm_base::Bits;
use std::alloc::Global;
use vlog_numbers::{Fault, is_size, sized_bits, unsized_bits, word_bits};

/// A decimal by itself, a based token by itself, or a based token behind its size: its bits, the least first.
#[tactic(auto, unfolding(crate::specs::Numbers::number))]
pub fn number(alloc: Global, cursor: &mut Cursor<'_, '_>) -> Result<Bits, Fault>
    ensures reads { Reads (spec.number cursor.old) result cursor.new }
    ensures consumes { OnOk result (length cursor.new < length cursor.old) }
{
    if cursor.sees_based() {
        unsized_number(alloc, cursor)
    } else if cursor.sees_size() {
        sized_number(alloc, cursor)
    } else {
        decimal_number(alloc, cursor)
    }
}

#[tactic(auto, unfolding(crate::specs::Numbers::decimal_number))]
fn decimal_number(alloc: Global, cursor: &mut Cursor<'_, '_>) -> Result<Bits, Fault>
    ensures reads { Reads (spec.decimal_number cursor.old) result cursor.new }
    ensures consumes { OnOk result (length cursor.new < length cursor.old) }
{
    let value = cursor.decimal()?;
    Ok(word_bits(alloc, value)?)
}

#[tactic(auto, unfolding(crate::specs::Numbers::unsized_number, crate::specs::Reads::take_if))]
fn unsized_number(alloc: Global, cursor: &mut Cursor<'_, '_>) -> Result<Bits, Fault>
    ensures reads { Reads (spec.unsized_number cursor.old) result cursor.new }
    ensures consumes { OnOk result (length cursor.new < length cursor.old) }
{
    let bits = unsized_bits(alloc, cursor.peek()?)?;
    cursor.skip();
    Ok(bits)
}

#[tactic(auto, unfolding(crate::specs::Numbers::sized_number))]
fn sized_number(alloc: Global, cursor: &mut Cursor<'_, '_>) -> Result<Bits, Fault>
    ensures reads { Reads (spec.sized_number cursor.old) result cursor.new }
    ensures consumes { OnOk result (length cursor.new < length cursor.old) }
{
    let width = cursor.decimal()?;
    sized_digits(alloc, cursor, width)
}

// The based token behind a size. A decimal may be a number by itself, so one outside the bounds of a size does not fit
// here.
#[tactic(auto, unfolding(crate::specs::Numbers::sized_digits))]
fn sized_digits(alloc: Global, cursor: &mut Cursor<'_, '_>, width: u32) -> Result<Bits, Fault>
    ensures reads { Reads (spec.sized_digits width cursor.old) result cursor.new }
    ensures consumes { OnOk result (length cursor.new < length cursor.old) }
{
    if is_size(width) {
        digits(alloc, cursor, width as usize)
    } else {
        Err(Fault::Token)
    }
}

// A based token at a width.
#[tactic(auto, unfolding(crate::specs::Reads::take_if))]
fn digits(alloc: Global, cursor: &mut Cursor<'_, '_>, width: usize) -> Result<Bits, Fault>
    ensures reads { Reads (take_if (sized_of width) cursor.old) result cursor.new }
    ensures consumes { OnOk result (length cursor.new < length cursor.old) }
{
    let bits = sized_bits(alloc, cursor.peek()?, width)?;
    cursor.skip();
    Ok(bits)
}
