//! The bits of a based token (IEEE 1364-2005, clause 3.5.1).
ghost use Rattle.std.specs.Prelude.{◌≡◌, ◌≤◌, IfOk, drop};
ghost use Rattle.std.specs.List.{prefix_len};
ghost use Rattle.vlog_tokens.specs.Classes.{is_space};
ghost use Rattle.vlog_tree.specs.Spelling.Numbers.{based_value, decimal_bits, digit_bits};
ghost use Rattle.vlog_numbers.specs.Fill.{Holds, MakesRow};

use crate::digits::{digit_value, is_lone_unknown, whole_decimal};
use crate::fault::Fault;
use crate::row::Row;
use bm_base::NoMemory;
use std::alloc::Global;
use vlog_words::is_space;

/// The bits of a based token's digits, in a row that is as wide as this.
pub fn based_row(alloc: Global, text: &[u8], width: usize) -> Result<Row, Fault>
    ensures { MakesRow width (based_value text.now) result }
{
    let [_, letter, digits @ ..] = text else {
        return Err(Fault::Token);
    };
    let digits = without_spaces(digits);
    match *letter {
        b'b' | b'B' => Ok(digit_row(alloc, digits, 1, width)?),
        b'o' | b'O' => Ok(digit_row(alloc, digits, 3, width)?),
        b'h' | b'H' => Ok(digit_row(alloc, digits, 4, width)?),
        b'd' | b'D' => decimal_row(alloc, digits, width),
        _ => Err(Fault::Token),
    }
}

/// The bits of digits that are this many bits each.
fn digit_row(alloc: Global, digits: &[u8], digit_width: u32, width: usize) -> Result<Row, NoMemory>
    requires { digit_width ≤ 128 }
    ensures { IfOk result (λ row. Holds width row (digit_bits digit_width digits.now)) }
{
    let mut row = Row::new(alloc, width)?;
    for digit in digits.iter().rev() {
        if *digit != b'_' {
            row.push(digit_value(*digit) as u128, digit_width);
        }
    }
    Ok(row)
}

/// The bits of digits of base `d`.
fn decimal_row(alloc: Global, digits: &[u8], width: usize) -> Result<Row, Fault>
    ensures { MakesRow width (decimal_bits digits.now) result }
{
    let mut row = Row::new(alloc, width)?;
    if is_lone_unknown(digits) {
        return Ok(row);
    }
    let Some(value) = whole_decimal(digits) else {
        return Err(Fault::Token);
    };
    row.push(value, 128);
    Ok(row)
}

fn without_spaces(text: &[u8]) -> &[u8]
    ensures { result.now ≡ drop (prefix_len is_space text.now) text.now }
{
    for i in 0..text.len() {
        if !is_space_byte(text[i]) {
            return &text[i..];
        }
    }
    &[]
}

fn is_space_byte(byte: u8) -> bool
    ensures { result ≡ is_space byte }
{
    is_space(byte)
}
