//! The status and the line of refused files.
ghost use Rattle.std.specs.Prelude.{◌≡◌, IfOk};
ghost use Rattle.std.specs.String.{string_bytes};
ghost use Rattle.bm_inputs.specs.Lines.{limit_line, placed_line};

use crate::netlist_line::{netlist_line, netlist_status};
use crate::stop::InputRefusal;
use crate::waveform_line::{waveform_line, waveform_status};
use bm_base::{NoMemory, Size, Status};
use std::alloc::{AllocError, Global};

impl InputRefusal {
    ghost use Rattle.bm_inputs.specs.Lines.{refusal_line, refusal_status};

    pub fn status(&self) -> Status
        ensures { result ≡ refusal_status self.now }
    {
        match self {
            InputRefusal::Netlist(fault) => netlist_status(fault),
            InputRefusal::Limit(_) => Status::Limit,
            InputRefusal::Waveform(fault) => waveform_status(fault),
        }
    }

    /// The line, with its newline.
    pub fn line(&self, alloc: Global) -> Result<Vec<u8>, NoMemory>
        ensures { IfOk result (λ line. line.items ≡ refusal_line self.now) }
    {
        match self {
            InputRefusal::Netlist(fault) => netlist_line(alloc, fault),
            InputRefusal::Limit(what) => Ok(limit_line(alloc, *what)?.into_bytes()),
            InputRefusal::Waveform(fault) => waveform_line(alloc, fault),
        }
    }
}

/// The line that says that a size passes its limit.
pub fn limit_line(alloc: Global, what: Size) -> Result<String, AllocError>
    ensures { IfOk result (λ line. string_bytes line ≡ limit_line what) }
{
    let limit = what.limit();
    format!(in alloc; "limit: {what} {limit}\n")
}

/// The line of a fault of such a file, with this code, at a place, with its newline.
pub(crate) fn placed_line(
    alloc: Global,
    file: &str,
    code: &str,
    at: u64,
) -> Result<String, AllocError>
    ensures { IfOk result (λ line. string_bytes line ≡ placed_line file.now code.now at) }
{
    format!(in alloc; "{file} refused: {code} at {at}\n")
}
