//! How a refused waveform is answered.
ghost use Rattle.std.specs.Prelude.{◌≡◌, ◌++◌, codes, IfOk};
ghost use Rattle.bm_inputs.specs.Lines.{placed_line, waveform_line, waveform_status};

use crate::line::{limit_line, placed_line};
use bm_base::{Name, NoMemory, Status};
use std::alloc::Global;
use vcd_header::VcdFault;

/// A limit that the rows pass has the status of a limit.
pub(crate) fn waveform_status(fault: &VcdFault) -> Status
    ensures { result ≡ waveform_status fault.now }
{
    match fault {
        VcdFault::Limit { .. } => Status::Limit,
        _ => Status::Waveform,
    }
}

/// The line, with its newline.
pub(crate) fn waveform_line(alloc: Global, fault: &VcdFault) -> Result<Vec<u8>, NoMemory>
    ensures { IfOk result (λ line. line.items ≡ waveform_line fault.now) }
{
    match fault {
        VcdFault::Token { at } => placed(alloc, "V1", *at),
        VcdFault::Truncated { at } => placed(alloc, "V2", *at),
        VcdFault::TimeBack { at } => placed(alloc, "V3", *at),
        VcdFault::BadCode { at } => placed(alloc, "V4", *at),
        VcdFault::TooWide { at } => placed(alloc, "V5", *at),
        VcdFault::NoScope => text(alloc, b"waveform refused: V6\n"),
        VcdFault::NoSignal { name } => named(alloc, name),
        VcdFault::NoTime => text(alloc, b"waveform refused: V8\n"),
        VcdFault::Limit { what } => Ok(limit_line(alloc, *what)?.into_bytes()),
        VcdFault::Read => text(alloc, b"read fault\n"),
        VcdFault::Memory => text(alloc, b""),
    }
}

// The line of a fault at a place.
fn placed(alloc: Global, code: &str, at: u64) -> Result<Vec<u8>, NoMemory>
    ensures { IfOk result (λ line. line.items ≡ placed_line (codes "waveform") code.now at) }
{
    Ok(placed_line(alloc, "waveform", code, at)?.into_bytes())
}

// The line of a signal that has a bit which nothing gives.
fn named(alloc: Global, name: &Name) -> Result<Vec<u8>, NoMemory>
    ensures { IfOk result (λ line. line.items ≡ codes "waveform refused: V7 " ++ name.now ++ codes "\n") }
{
    let mut line = text(alloc, b"waveform refused: V7 ")?;
    line.extend_from_slice(name.bytes())?;
    line.extend_from_slice(b"\n")?;
    Ok(line)
}

fn text(alloc: Global, bytes: &[u8]) -> Result<Vec<u8>, NoMemory>
    ensures { IfOk result (λ text. text.items ≡ bytes.now) }
{
    let mut text = Vec::new(alloc);
    text.extend_from_slice(bytes)?;
    Ok(text)
}
