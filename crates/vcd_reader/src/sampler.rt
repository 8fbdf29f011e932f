ghost use Rattle.std.specs.Prelude.{◌≡◌, ◌⊎◌, ◌++◌, ◌∷◌, ◌<◌, ◌&&◌, [], ℕ, List, Err, Ok, IfErr, IfOk, OnOk, length};
ghost use Rattle.vcd_header.specs.declared.fault.VcdFault.TheVariants.{Memory};
ghost use Rattle.vcd_reader.specs.Changes.{Triple};
ghost use Rattle.vcd_reader.specs.Sources.{Clocked};
ghost use Rattle.vcd_reader.specs.Waveform.{within_limits};

use crate::bounded::BoundedRows;
use crate::digit::{count_unknown, digit_given, put_digits, unknown_digits, value_after};
use crate::sources::Sources;
use bm_base::{Bits, NoMemory};
use std::alloc::Global;
use trace_rows::Trace;
use vcd_header::VcdFault;

/// The values of the clock and the inputs as a body is read, and the rows so far.
#[derive(Drop)]
pub(crate) struct Sampler {
    clock: bool,
    inputs: Bits,
    // whether there was a time before this one, at whose end the clock was 0
    is_low: bool,
    // if so, the inputs at its end
    before: Bits,
    unknown: u64,
    rows: BoundedRows,
}

impl Sampler {
    ghost use Rattle.vcd_reader.specs.Sampling.{IsAligned, SampledAt, change_at, reading_at};

    /// Nothing has changed yet.
    pub(crate) fn new(alloc: Global, width: usize, registers: u32) -> Result<Sampler, NoMemory>
        ensures aligned { IfOk result (λ sampler. IsAligned width sampler) }
        ensures sampled { IfOk result (λ sampler. (sources : Clocked) (first : ℕ) → length sources.inputs ≡ width
            → SampledAt registers sources [] [] first sampler) }
    {
        let inputs = Bits::zeros(alloc, width)?;
        let before = Bits::zeros(alloc, width)?;
        Ok(Sampler {
            clock: false,
            inputs,
            is_low: false,
            before,
            unknown: 0,
            rows: BoundedRows::new(alloc, width, registers),
        })
    }

    /// Gives the bits of a code these digits. A count of 2^64 unknown bits answers want of memory.
    pub(crate) fn put_change(
        &mut self,
        sources: &Sources,
        code: &[u8],
        digits: &[u8],
    ) -> Result<(), NoMemory>
        requires { IsAligned (length sources.now.inputs) self.old }
        ensures aligned { OnOk result (IsAligned (length sources.now.inputs) self.new) }
        ensures sampled { OnOk result ((registers : ℕ) (changes : List Triple) (earlier : List ℕ) (now : ℕ)
            → SampledAt registers sources.now changes earlier now self.old
            → SampledAt registers sources.now (changes ++ change_at now code.now digits.now ∷ []) earlier now
            self.new) }
    {
        let targets = sources.targets(code);
        let given = digit_given(sources.clock(), code, digits);
        let unknown = count_unknown(given) + unknown_digits(targets, digits);
        self.unknown = match self.unknown.checked_add(unknown) {
            Some(unknown) => unknown,
            None => return Err(NoMemory),
        };
        self.clock = value_after(self.clock, given);
        put_digits(&mut self.inputs, targets, digits);
        Ok(())
    }

    // Whether the clock has risen since the time before.
    fn is_edge(&self) -> bool
        ensures { result ≡ (self.now.is_low && self.now.clock) }
    {
        self.is_low && self.clock
    }

    /// Ends the time, since a later one comes.
    pub(crate) fn end_time(&mut self, sources: &Sources) -> Result<(), NoMemory>
        requires { IsAligned (length sources.now.inputs) self.old }
        ensures aligned { OnOk result (IsAligned (length sources.now.inputs) self.new) }
        ensures sampled { OnOk result ((registers : ℕ) (changes : List Triple) (earlier : List ℕ) (now later : ℕ)
            → now < later → SampledAt registers sources.now changes earlier now self.old
            → SampledAt registers sources.now changes (earlier ++ now ∷ []) later self.new) }
    {
        let is_edge = self.is_edge();
        self.rows.push_if(is_edge, &self.before)?;
        self.is_low = !self.clock;
        if self.is_low {
            self.before = self.inputs.clone()?;
        }
        Ok(())
    }

    /// What was read, where nothing more comes.
    pub(crate) fn finish(self, sources: &Sources) -> Result<(Trace, u64), VcdFault>
        requires { IsAligned (length sources.now.inputs) self }
        ensures ok { IfOk result (λ read. (registers : ℕ) (changes : List Triple) (earlier : List ℕ) (now : ℕ)
            → SampledAt registers sources.now changes earlier now self
            → within_limits registers (reading_at sources.now changes earlier now)
            ≡ Ok (record { trace = read.0; unknown = read.1 })) }
        ensures err { IfErr result (λ fault. (registers : ℕ) (changes : List Triple) (earlier : List ℕ) (now : ℕ)
            → SampledAt registers sources.now changes earlier now self
            → (within_limits registers (reading_at sources.now changes earlier now) ≡ Err fault) ⊎ (fault ≡ Memory)) }
    {
        let is_edge = self.is_edge();
        let mut rows = self.rows;
        rows.push_if(is_edge, &self.before)?;
        rows.push(&self.inputs)?;
        match rows.finish() {
            Ok(trace) => Ok((trace, self.unknown)),
            Err(fault) => Err(fault),
        }
    }
}
