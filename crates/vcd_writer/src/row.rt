ghost use Rattle.std.specs.Prelude.{◌≡◌, [], ◌∷◌, ◌++◌, ◌≤◌, OnOk, length};
ghost use Rattle.vcd_writer.specs.Line.{text_of};
ghost use Rattle.vcd_writer.specs.Value.{row_width};
ghost use Rattle.vcd_writer.specs.Waveform.{edge_block, first_block, row_block, time_line};

use crate::code::CLOCK;
use crate::cycle::Cycle;
use crate::put::{put, put_number};
use crate::value::{put_check, put_check_change, put_port_changes, put_port_values, put_scalar};
use bm_base::NoMemory;
use trace_rows::PortLabel;

/// Appends the block of the first row.
#[tactic(auto, unfolding(crate::specs::Waveform::first_block))]
pub(crate) fn put_first(
    text: &mut Vec<u8>,
    ports: &[PortLabel],
    cycle: &Cycle,
) -> Result<(), NoMemory>
    requires { row_width ports.now ≤ length cycle.now.row.items }
    ensures { OnOk result (text.new.items
        ≡ text.old.items ++ text_of (first_block ports.now cycle.now.check cycle.now.row.items)) }
{
    put_time(text, 0)?;
    put(text, b"$dumpvars\n")?;
    put_scalar(text, false, CLOCK)?;
    put_check(text, cycle.check)?;
    put_port_values(text, ports, &cycle.row)?;
    put(text, b"$end\n")
}

/// Appends the block of row `i`, a later one.
#[tactic(auto, unfolding(crate::specs::Waveform::row_block))]
pub(crate) fn put_row(
    text: &mut Vec<u8>,
    ports: &[PortLabel],
    i: usize,
    before: &Cycle,
    cycle: &Cycle,
) -> Result<(), NoMemory>
    requires before { row_width ports.now ≤ length before.now.row.items }
    requires row { row_width ports.now ≤ length cycle.now.row.items }
    ensures { OnOk result (text.new.items
        ≡ text.old.items ++ text_of (row_block ports.now i
        before.now.check before.now.row.items cycle.now.check cycle.now.row.items)) }
{
    put_time(text, 10 * i as u128)?;
    put_scalar(text, false, CLOCK)?;
    put_check_change(text, before.check, cycle.check)?;
    put_port_changes(text, ports, &before.row, &cycle.row)
}

/// Appends the block of the edge after row `i`.
#[tactic(auto, unfolding(crate::specs::Waveform::edge_block))]
pub(crate) fn put_edge(text: &mut Vec<u8>, i: usize) -> Result<(), NoMemory>
    ensures { OnOk result (text.new.items ≡ text.old.items ++ text_of (edge_block i)) }
{
    put_time(text, 10 * i as u128 + 5)?;
    put_scalar(text, true, CLOCK)
}

fn put_time(text: &mut Vec<u8>, time: u128) -> Result<(), NoMemory>
    ensures { OnOk result (text.new.items ≡ text.old.items ++ text_of (time_line time ∷ [])) }
{
    put(text, b"#")?;
    put_number(text, time)?;
    put(text, b"\n")
}
