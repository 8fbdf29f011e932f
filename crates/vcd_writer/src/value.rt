ghost use Rattle.std.specs.Prelude.{◌≡◌, [], ◌∷◌, ◌++◌, ◌≤◌, OnOk, length};
ghost use Rattle.vcd_writer.specs.Code.{code_of, first_port};
ghost use Rattle.vcd_writer.specs.Line.{text_of};
ghost use Rattle.vcd_writer.specs.Value.{bit_digit, bit_digits, check_change_lines, check_lines, port_change, port_change_lines, port_value_lines, row_width, scalar_line, value_line};

use crate::code::{CHECK, FIRST_PORT, put_code};
use crate::put::put;
use bm_base::{NoMemory, Range};
use trace_rows::PortLabel;

/// Appends the line of the clock or the checker.
pub(crate) fn put_scalar(text: &mut Vec<u8>, bit: bool, number: usize) -> Result<(), NoMemory>
    ensures { OnOk result (text.new.items
        ≡ text.old.items ++ text_of (scalar_line bit (code_of number) ∷ [])) }
{
    put_value(text, None, &[bit], number)
}

/// Appends the checker's line, where there is a checker bit.
pub(crate) fn put_check(text: &mut Vec<u8>, check: Option<bool>) -> Result<(), NoMemory>
    ensures { OnOk result (text.new.items ≡ text.old.items ++ text_of (check_lines check)) }
{
    match check {
        Some(bit) => put_scalar(text, bit, CHECK),
        None => Ok(()),
    }
}

/// The same, where it differs from the checker bit before.
pub(crate) fn put_check_change(
    text: &mut Vec<u8>,
    before: Option<bool>,
    check: Option<bool>,
) -> Result<(), NoMemory>
    ensures { OnOk result (text.new.items
        ≡ text.old.items ++ text_of (check_change_lines before check)) }
{
    if before == check {
        return Ok(());
    }
    put_check(text, check)
}

/// Appends a line for each port. A port has the next bits of its width in the row.
pub(crate) fn put_port_values(
    text: &mut Vec<u8>,
    ports: &[PortLabel],
    row: &[bool],
) -> Result<(), NoMemory>
    requires { row_width ports.now ≤ length row.now }
    ensures { OnOk result (text.new.items
        ≡ text.old.items ++ text_of (port_value_lines first_port ports.now row.now)) }
{
    let mut rest = row;
    for (i, port) in ports.iter().enumerate() {
        let (bits, later) = rest.split_at(port.width as usize);
        put_value(text, port.range, bits, FIRST_PORT + i)?;
        rest = later;
    }
    Ok(())
}

/// Appends a line for each port that differs from the row before.
pub(crate) fn put_port_changes(
    text: &mut Vec<u8>,
    ports: &[PortLabel],
    before: &[bool],
    row: &[bool],
) -> Result<(), NoMemory>
    requires before { row_width ports.now ≤ length before.now }
    requires row { row_width ports.now ≤ length row.now }
    ensures { OnOk result (text.new.items
        ≡ text.old.items ++ text_of (port_change_lines first_port ports.now before.now row.now)) }
{
    let mut rest_before = before;
    let mut rest = row;
    for (i, port) in ports.iter().enumerate() {
        let (bits_before, later_before) = rest_before.split_at(port.width as usize);
        let (bits, later) = rest.split_at(port.width as usize);
        put_port_change(text, port, FIRST_PORT + i, bits_before, bits)?;
        rest_before = later_before;
        rest = later;
    }
    Ok(())
}

// Appends the port's line, where its bits differ from those before.
fn put_port_change(
    text: &mut Vec<u8>,
    port: &PortLabel,
    number: usize,
    before: &[bool],
    bits: &[bool],
) -> Result<(), NoMemory>
    ensures { OnOk result (text.new.items
        ≡ text.old.items ++ text_of (port_change number port.now before.now bits.now)) }
{
    if before == bits {
        return Ok(());
    }
    put_value(text, port.range, bits, number)
}

// Appends the line of a variable's value.
fn put_value(
    text: &mut Vec<u8>,
    range: Option<Range>,
    bits: &[bool],
    number: usize,
) -> Result<(), NoMemory>
    ensures { OnOk result (text.new.items
        ≡ text.old.items ++ text_of (value_line range bits.now (code_of number) ∷ [])) }
{
    put_value_and_code(text, range, bits, number)?;
    put(text, b"\n")
}

fn put_value_and_code(
    text: &mut Vec<u8>,
    range: Option<Range>,
    bits: &[bool],
    number: usize,
) -> Result<(), NoMemory>
    ensures { OnOk result (text.new.items
        ≡ text.old.items ++ value_line range bits.now (code_of number)) }
{
    match range {
        None => {
            put_digits(text, bits)?;
            put_code(text, number)
        }
        Some(_) => {
            put(text, b"b")?;
            put_digits(text, bits)?;
            put(text, b" ")?;
            put_code(text, number)
        }
    }
}

// Appends the digits of bits that are given from the right end.
fn put_digits(text: &mut Vec<u8>, bits: &[bool]) -> Result<(), NoMemory>
    ensures { OnOk result (text.new.items ≡ text.old.items ++ bit_digits bits.now) }
{
    text.extend(bits.iter().rev().map(|bit| bit_digit(*bit)))?;
    Ok(())
}

fn bit_digit(bit: bool) -> u8
    ensures { result ≡ bit_digit bit }
{
    if bit { b'1' } else { b'0' }
}
