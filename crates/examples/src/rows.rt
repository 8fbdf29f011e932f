//! The rows of a waveform.
use crate::shown::put_shown;
use crate::trouble::Trouble;
use bm_base::{Name, Range};
use sqlite_items::Items;
use std::alloc::{AllocError, Global};
use trace_rows::{Labels, PortLabel, Trace};
use vcd_header::VcdFault;
use vcd_reader::read_bytes;

/// The rows of a waveform of these signals, or why it has none. The first of the signals is the clock, and the others
/// are the inputs, as `a` or `data[7:0]`. An input's left end comes first.
pub fn said_of_rows(alloc: Global, source: &[u8], signals: &str) -> Result<String, Trouble> {
    let labels = labels_of(alloc, signals)?;
    let mut says = String::new(alloc);
    match read_bytes(alloc, source, &labels, None, 0) {
        Ok((trace, unknown)) => {
            put_rows(alloc, &mut says, labels.ports.as_slice(), &trace)?;
            writeln!(says, "unknown {unknown}")?;
        }
        Err(fault) => put_fault(&mut says, &fault)?,
    }
    Ok(says)
}

// `clk a data[7:0]`
fn labels_of(alloc: Global, signals: &str) -> Result<Labels, Trouble> {
    let (clock, inputs) = signals.split_once(' ').ok_or(Trouble::Words)?;
    let mut ports = Vec::new(alloc);
    for input in inputs.split_whitespace() {
        ports.push(port_of(alloc, input)?)?;
    }
    Ok(Labels {
        top: Name::new(alloc, b"top")?,
        clock: Name::new(alloc, clock.as_bytes())?,
        check: Name::new(alloc, b"bad")?,
        ports: Items::from_vec(ports),
    })
}

// `a`, or `data[7:0]`
fn port_of(alloc: Global, input: &str) -> Result<PortLabel, Trouble> {
    let (name, range) = match input.split_once('[') {
        None => (input, None),
        Some((name, ends)) => (name, Some(range_of(ends)?)),
    };
    Ok(PortLabel {
        name: Name::new(alloc, name.as_bytes())?,
        width: width_of(range),
        range,
    })
}

// `7:0]`
fn range_of(ends: &str) -> Result<Range, Trouble> {
    let ends = ends.strip_suffix(']').ok_or(Trouble::Words)?;
    let (left, right) = ends.split_once(':').ok_or(Trouble::Words)?;
    Ok(Range {
        left: end_of(left)?,
        right: end_of(right)?,
    })
}

fn end_of(end: &str) -> Result<u32, Trouble> {
    match end.parse::<u32>() {
        Ok(end) => Ok(end),
        Err(_) => Err(Trouble::Words),
    }
}

fn width_of(range: Option<Range>) -> u32 {
    match range {
        None => 1,
        Some(range) => range.left.abs_diff(range.right).saturating_add(1),
    }
}

fn put_rows(
    alloc: Global,
    says: &mut String,
    ports: &[PortLabel],
    trace: &Trace,
) -> Result<(), AllocError> {
    for t in 0..trace.len() {
        let mut digits = Vec::new(alloc);
        for b in 0..trace.width() {
            digits.push(if trace.bit(t, b) { '1' } else { '0' })?;
        }
        put_row(says, ports, &digits)?;
    }
    Ok(())
}

// The digits stand as in a row: those of each input from its right end.
fn put_row(says: &mut String, ports: &[PortLabel], digits: &[char]) -> Result<(), AllocError> {
    let mut rest = digits;
    for (i, port) in ports.iter().enumerate() {
        if i > 0 {
            says.push(' ')?;
        }
        if let Some((input, behind)) = rest.split_at_checked(port.width as usize) {
            put_input(says, input)?;
            rest = behind;
        }
    }
    says.push('\n')
}

fn put_input(says: &mut String, input: &[char]) -> Result<(), AllocError> {
    for digit in input.iter().rev() {
        says.push(*digit)?;
    }
    Ok(())
}

fn put_fault(says: &mut String, fault: &VcdFault) -> Result<(), Trouble> {
    match fault {
        VcdFault::Token { at } => put_place(says, "V1", *at)?,
        VcdFault::Truncated { at } => put_place(says, "V2", *at)?,
        VcdFault::TimeBack { at } => put_place(says, "V3", *at)?,
        VcdFault::BadCode { at } => put_place(says, "V4", *at)?,
        VcdFault::TooWide { at } => put_place(says, "V5", *at)?,
        VcdFault::NoScope => says.push_str("V6\n")?,
        VcdFault::NoSignal { name } => put_signal(says, name)?,
        VcdFault::NoTime => says.push_str("V8\n")?,
        VcdFault::Limit { .. } => says.push_str("limit\n")?,
        VcdFault::Read => return Err(Trouble::System),
        VcdFault::Memory => return Err(Trouble::Memory),
    }
    Ok(())
}

fn put_place(says: &mut String, code: &str, at: u64) -> Result<(), AllocError> {
    writeln!(says, "{code} at {at}")
}

fn put_signal(says: &mut String, name: &Name) -> Result<(), AllocError> {
    says.push_str("V7 ")?;
    put_shown(says, name.bytes())?;
    says.push('\n')
}
