ghost use Rattle.std.specs.Prelude.{◌≡◌, ◌⊎◌, Err, IfErr, IfOk, Ok, option_copied};
ghost use Rattle.bm_base.specs.Counts.{count_of, Rose, RisesOnlyAt, SameCounts};
ghost use Rattle.vcd_header.specs.declared.fault.VcdFault.TheVariants.{Memory, Read};
ghost use Rattle.vcd_reader.specs.Files.{ReadAs};

use crate::waveform::read_bytes;
use bm_base::{Fault, Shelf};
use bm_files::read_front;
use std::alloc::Global;
use trace_rows::{Labels, Trace};
use vcd_header::VcdFault;

/// What the first `size` bytes of a file are as a waveform of these labels (IEEE 1364-2005, clause 18), as `read_bytes`
/// says it, or that the shelf failed to read them.
pub fn read_vcd<F: Shelf>(
    alloc: Global,
    shelf: &mut F,
    name: &str,
    size: u64,
    labels: &Labels,
    scope: Option<&str>,
    registers: u32,
) -> Result<(Trace, u64), VcdFault>
    ensures read { IfOk result
        (λ read. ReadAs (F.held shelf.old) name.now size labels.now (option_copied scope.entry) registers
        (Ok (record { trace = read.0; unknown = read.1 }))) }
    ensures refused { IfErr result
        (λ fault. ReadAs (F.held shelf.old) name.now size labels.now (option_copied scope.entry) registers (Err fault)
        ⊎ ((fault ≡ Read) ⊎ (fault ≡ Memory))) }
    ensures cause { IfErr result
        (λ fault. fault ≡ Read → Rose (count_of (F.reads shelf.old) name.now) (count_of (F.reads shelf.new) name.now)) }
    ensures held { F.held shelf.new ≡ F.held shelf.old }
    ensures reads { RisesOnlyAt name.now (F.reads shelf.old) (F.reads shelf.new) }
    ensures writes { SameCounts (F.writes shelf.old) (F.writes shelf.new) }
{
    match read_front(alloc, shelf, name, size) {
        Ok(bytes) => read_bytes(alloc, &bytes, labels, scope, registers),
        Err(Fault::Failed) => Err(VcdFault::Read),
        Err(Fault::Memory) => Err(VcdFault::Memory),
    }
}
