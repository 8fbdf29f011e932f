//! The waveform of a command, from its file.
ghost use Rattle.std.specs.Prelude.{◌≡◌, ◌≤◌, IfErr, IfOk, IfSome, length, option_copied};
ghost use Rattle.bm_base.specs.Held.{bytes_under};
ghost use Rattle.bm_base.specs.Size.{limit_of};
ghost use Rattle.vcd_reader.specs.Laws.{Fits};
ghost use Rattle.bm_inputs.specs.Reading.{ReadsOnly, ReadsWaveform, StopsAtWaveform, StopsFilling};

use crate::stop::{InputRefusal, InputStop};
use bm_base::{Fault, Shelf, Size};
use std::alloc::Global;
use trace_rows::{Labels, Trace};
use vcd_header::VcdFault;
use vcd_reader::laws::{shorter_fits, waveforms_fit};
use vcd_reader::read_vcd;

/// The rows of the waveform, and how many bits it gives as `x` or `z`.
pub(crate) fn read_waveform<F: Shelf>(
    alloc: Global,
    shelf: &mut F,
    name: &str,
    labels: &Labels,
    scope: Option<&str>,
    registers: u32,
) -> Result<(Trace, u64), InputStop>
    ensures only_reads { ReadsOnly name.now (F.held shelf.old) (F.held shelf.new) (F.reads shelf.old)
        (F.reads shelf.new) (F.writes shelf.old) (F.writes shelf.new) }
    ensures stops { IfErr result (StopsAtWaveform labels.now (option_copied scope.entry) registers (F.held shelf.old)
        name.now (F.reads shelf.old) (F.reads shelf.new)) }
    ensures read { IfOk result (λ read. ReadsWaveform labels.now (option_copied scope.entry) registers
        (F.held shelf.old) name.now (record { trace = read.0; unknown = read.1 })) }
    ensures fits { IfOk result (λ read. Fits labels.now (record { trace = read.0; unknown = read.1 })) }
    ensures cycles { IfOk result (λ read. length read.0.rows ≤ limit_of Size.Cycles) }
{
    waveforms_fit();
    shorter_fits();
    let size = waveform_len(shelf, name)?;
    if size > Size::Waveform.limit() {
        return Err(InputStop::Refused(InputRefusal::Limit(Size::Waveform)));
    }
    match read_vcd(alloc, shelf, name, size, labels, scope, registers) {
        Ok(read) => Ok(read),
        Err(VcdFault::Read) => Err(InputStop::ReadFault),
        Err(VcdFault::Memory) => Err(InputStop::Memory),
        Err(fault) => Err(InputStop::Refused(InputRefusal::Waveform(fault))),
    }
}

fn waveform_len<F: Shelf>(shelf: &mut F, name: &str) -> Result<u64, InputStop>
    ensures only_reads { ReadsOnly name.now (F.held shelf.old) (F.held shelf.new) (F.reads shelf.old)
        (F.reads shelf.new) (F.writes shelf.old) (F.writes shelf.new) }
    ensures stops { IfErr result (StopsFilling name.now (F.reads shelf.old) (F.reads shelf.new)) }
    ensures len { IfOk result (λ len. IfSome (F.held shelf.old) (λ held. len ≡ length (bytes_under held name.now))) }
{
    match shelf.len(name) {
        Ok(len) => Ok(len),
        Err(Fault::Failed) => Err(InputStop::ReadFault),
        Err(Fault::Memory) => Err(InputStop::Memory),
    }
}
