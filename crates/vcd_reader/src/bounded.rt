ghost use Rattle.std.specs.Prelude.{◌≡◌, ◌++◌, ◌∷◌, ◌<◌, [], ℕ, Bool, List, None, Some, IfErr, IfOk, OnOk, length, nat_lt, ◌*◌, if◌then◌else◌};
ghost use Rattle.std.specs.Option.{option_map};
ghost use Rattle.vcd_header.specs.declared.fault.VcdFault.TheVariants.{Limit};
ghost use Rattle.vcd_reader.specs.Waveform.{limit_passed};

use bm_base::{Bits, NoMemory, Size};
use std::alloc::Global;
use trace_rows::Trace;
use vcd_header::VcdFault;

/// Rows, which are kept while they pass no limit, and counted further on.
#[derive(Drop)]
pub(crate) struct BoundedRows {
    trace: Trace,
    count: u64,
    registers: u32,
}

impl BoundedRows {
    ghost use Rattle.vcd_reader.specs.Sampling.{HoldsRows, rows_of};

    /// No rows yet, where each is to have this many bits.
    pub(crate) fn new(alloc: Global, width: usize, registers: u32) -> BoundedRows
        ensures rows { HoldsRows registers width [] result }
        ensures width { result.trace.width ≡ width }
    {
        BoundedRows {
            trace: Trace::new(alloc, width),
            count: 0,
            registers,
        }
    }

    /// Adds a row.
    pub(crate) fn push(&mut self, row: &Bits) -> Result<(), NoMemory>
        requires { length row.now ≡ self.old.trace.width }
        ensures rows { OnOk result ((registers width : ℕ) (rows : List (List Bool))
            → HoldsRows registers width rows self.old → HoldsRows registers width (rows ++ row.now ∷ []) self.new) }
        ensures width { OnOk result (self.new.trace.width ≡ self.old.trace.width) }
    {
        self.count = match self.count.checked_add(1) {
            Some(count) => count,
            None => return Err(NoMemory),
        };
        match limit_passed(self.count, self.trace.width(), self.registers) {
            Some(_) => Ok(()),
            None => self.trace.push(row),
        }
    }

    /// Adds a row, where this is so.
    pub(crate) fn push_if(&mut self, test: bool, row: &Bits) -> Result<(), NoMemory>
        requires { length row.now ≡ self.old.trace.width }
        ensures rows { OnOk result ((registers width : ℕ) (rows : List (List Bool))
            → HoldsRows registers width rows self.old
            → HoldsRows registers width (rows ++ (if test then row.now ∷ [] else [])) self.new) }
        ensures width { OnOk result (self.new.trace.width ≡ self.old.trace.width) }
    {
        if test { self.push(row) } else { Ok(()) }
    }

    /// The rows, or the first limit that they pass.
    pub(crate) fn finish(self) -> Result<Trace, VcdFault>
        ensures ok { IfOk result (λ trace. (registers width : ℕ) (rows : List (List Bool))
            → HoldsRows registers width rows self
            → (limit_passed registers (rows_of width rows) ≡ None) × (trace ≡ rows_of width rows)) }
        ensures err { IfErr result (λ fault. (registers width : ℕ) (rows : List (List Bool))
            → HoldsRows registers width rows self
            → option_map (λ what. Limit what) (limit_passed registers (rows_of width rows)) ≡ Some fault) }
    {
        match limit_passed(self.count, self.trace.width(), self.registers) {
            Some(what) => Err(VcdFault::Limit { what }),
            None => Ok(self.trace),
        }
    }
}

// The first limit that so many rows pass.
fn limit_passed(count: u64, width: usize, registers: u32) -> Option<Size>
    ensures { (rows : List (List Bool)) → length rows ≡ count
        → result ≡ limit_passed registers (record { width = width; rows = rows }) }
{
    if Size::Cycles.limit() < count {
        Some(Size::Cycles)
    } else if are_more(Size::Bits.limit(), count, width as u64) {
        Some(Size::Bits)
    } else if Size::States.limit() < (count + 1) * u64::from(registers) {
        Some(Size::States)
    } else {
        None
    }
}

// Whether so many rows of this width have more bits.
fn are_more(limit: u64, count: u64, width: u64) -> bool
    ensures { result ≡ nat_lt limit (count * width) }
{
    match count.checked_mul(width) {
        Some(bits) => limit < bits,
        None => true,
    }
}
