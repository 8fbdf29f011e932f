ghost use Rattle.std.specs.Prelude.{◌≡◌, [], ◌∷◌, ◌++◌, OnOk};
ghost use Rattle.vcd_writer.specs.Code.{code_of, first_port};
ghost use Rattle.vcd_writer.specs.Header.{check_declaration, header, opening_lines, port_lines, range_part, variable_line};
ghost use Rattle.vcd_writer.specs.Line.{text_of};

use crate::code::{CHECK, CLOCK, FIRST_PORT, put_code};
use crate::put::{put, put_name, put_number};
use bm_base::{Name, NoMemory, Range};
use trace_rows::{Labels, PortLabel};

/// Appends the lines before the first row. `checked`: whether there are checker bits.
pub(crate) fn put_header(text: &mut Vec<u8>, labels: &Labels, checked: bool) -> Result<(), NoMemory>
    ensures { OnOk result (text.new.items ≡ text.old.items ++ text_of (header labels.now checked)) }
{
    put_opening(text, &labels.top)?;
    put_variable(text, 1, CLOCK, &labels.clock, None)?;
    put_check_variable(text, &labels.check, checked)?;
    put_ports(text, labels.ports.as_slice())?;
    put(text, b"$upscope $end\n$enddefinitions $end\n")
}

fn put_opening(text: &mut Vec<u8>, top: &Name) -> Result<(), NoMemory>
    ensures { OnOk result (text.new.items ≡ text.old.items ++ text_of (opening_lines top.now)) }
{
    put(
        text,
        b"$version butramin 1 $end\n$timescale 1ns $end\n$scope module ",
    )?;
    put_name(text, top)?;
    put(text, b" $end\n")
}

fn put_check_variable(text: &mut Vec<u8>, name: &Name, checked: bool) -> Result<(), NoMemory>
    ensures { OnOk result (text.new.items
        ≡ text.old.items ++ text_of (check_declaration name.now checked)) }
{
    if checked {
        return put_variable(text, 1, CHECK, name, None);
    }
    Ok(())
}

fn put_ports(text: &mut Vec<u8>, ports: &[PortLabel]) -> Result<(), NoMemory>
    ensures { OnOk result (text.new.items
        ≡ text.old.items ++ text_of (port_lines first_port ports.now)) }
{
    for (i, port) in ports.iter().enumerate() {
        put_variable(text, port.width, FIRST_PORT + i, &port.name, port.range)?;
    }
    Ok(())
}

#[tactic(auto, unfolding(crate::specs::Header::variable_line))]
fn put_variable(
    text: &mut Vec<u8>,
    width: u32,
    number: usize,
    name: &Name,
    range: Option<Range>,
) -> Result<(), NoMemory>
    ensures { OnOk result (text.new.items
        ≡ text.old.items ++ text_of (variable_line width (code_of number) name.now range ∷ [])) }
{
    put(text, b"$var wire ")?;
    put_number(text, u128::from(width))?;
    put(text, b" ")?;
    put_code(text, number)?;
    put(text, b" ")?;
    put_name(text, name)?;
    put_range(text, range)?;
    put(text, b" $end\n")
}

fn put_range(text: &mut Vec<u8>, range: Option<Range>) -> Result<(), NoMemory>
    ensures { OnOk result (text.new.items ≡ text.old.items ++ range_part range) }
{
    let Some(Range { left, right }) = range else {
        return Ok(());
    };
    put(text, b" [")?;
    put_number(text, u128::from(left))?;
    put(text, b":")?;
    put_number(text, u128::from(right))?;
    put(text, b"]")
}
