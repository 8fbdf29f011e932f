ghost use Rattle.std.specs.Prelude.{◌≡◌, ◌⊎◌, ◌∷◌, Err, Ok, IfErr, IfOk, OnOk, length, map};
ghost use Rattle.std.specs.Option.{option_or};
ghost use Rattle.vcd_header.specs.Bits.{source_shown};
ghost use Rattle.vcd_header.specs.declared.fault.VcdFault.TheVariants.{Memory};
ghost use Rattle.vcd_reader.specs.Body.{items};
ghost use Rattle.vcd_reader.specs.Changes.{time_of};
ghost use Rattle.vcd_reader.specs.Said.{fault_after, item_of};
ghost use Rattle.vcd_reader.specs.Sampling.{IsAligned, TakesItem, is_later};
ghost use Rattle.vcd_reader.specs.Waveform.{body_reading, change_fault, limited};

use crate::item::{Said, next_item};
use crate::sampler::Sampler;
use crate::sources::Sources;
use bm_base::NoMemory;
use std::alloc::Global;
use trace_rows::Trace;
use vcd_header::{BitSource, Declarations, Tokens, VcdFault};

/// Takes the body: the rows and how many bits were given as `x` or `z`, where the bits come from these sources, the
/// first of which is the clock's, or else the first fault.
pub(crate) fn read_body(
    alloc: Global,
    declarations: &Declarations,
    tokens: &mut Tokens,
    sources: &[BitSource],
    registers: u32,
) -> Result<(Trace, u64), VcdFault>
    ensures ok { IfOk result (λ read.
        limited registers (body_reading declarations.now.variables (items tokens.old) (map source_shown sources.now))
        ≡ Ok (record { trace = read.0; unknown = read.1 })) }
    ensures err { IfErr result (λ fault. (limited registers
        (body_reading declarations.now.variables (items tokens.old) (map source_shown sources.now)) ≡ Err fault)
        ⊎ (fault ≡ Memory)) }
{
    match sources.split_first() {
        Some((clock, inputs)) => {
            let sources = Sources::new(alloc, *clock, inputs)?;
            sampled(alloc, declarations, tokens, &sources, registers)
        }
        None => Err(VcdFault::NoScope),
    }
}

// The same, where the sources are arranged.
fn sampled(
    alloc: Global,
    declarations: &Declarations,
    tokens: &mut Tokens,
    sources: &Sources,
    registers: u32,
) -> Result<(Trace, u64), VcdFault>
    ensures ok { IfOk result (λ read. limited registers (body_reading declarations.now.variables (items tokens.old)
        (sources.now.clock ∷ sources.now.inputs)) ≡ Ok (record { trace = read.0; unknown = read.1 })) }
    ensures err { IfErr result (λ fault. (limited registers (body_reading declarations.now.variables (items tokens.old)
        (sources.now.clock ∷ sources.now.inputs)) ≡ Err fault) ⊎ (fault ≡ Memory)) }
{
    let mut sampler = Sampler::new(alloc, sources.input_count(), registers)?;
    let mut last = None;
    while let Some(said) = next_item(tokens) {
        match fault_after(declarations, last, said) {
            Some(fault) => return Err(fault),
            None => {}
        }
        take_item(&mut sampler, sources, last, said)?;
        last = time_after(last, said);
    }
    match last {
        Some(_) => sampler.finish(sources),
        None => Err(VcdFault::NoTime),
    }
}

// Takes what is said behind the last time, if there was one.
fn take_item(
    sampler: &mut Sampler,
    sources: &Sources,
    last: Option<u64>,
    said: Said,
) -> Result<(), NoMemory>
    requires { IsAligned (length sources.now.inputs) sampler.old }
    ensures aligned { OnOk result (IsAligned (length sources.now.inputs) sampler.new) }
    ensures samples { OnOk result (TakesItem sources.now last (item_of said.entry) sampler.old sampler.new) }
{
    match said {
        Said::Time { time, .. } => {
            if is_later(last, time) {
                sampler.end_time(sources)
            } else {
                Ok(())
            }
        }
        Said::Change { code, digits, .. } => sampler.put_change(sources, code, digits),
        Said::Misplaced { .. } | Said::Unfinished { .. } => Ok(()),
    }
}

// Whether the time is later than the last one.
fn is_later(last: Option<u64>, time: u64) -> bool
    ensures { result ≡ is_later last time }
{
    match last {
        Some(last) => last < time,
        None => false,
    }
}

// The fault of what is said behind the last time, if there was one.
fn fault_after(declarations: &Declarations, last: Option<u64>, said: Said) -> Option<VcdFault>
    ensures { result ≡ fault_after declarations.now.variables last (item_of said.entry) }
{
    match said {
        Said::Time { at, time } => {
            if time < last.unwrap_or(0) {
                Some(VcdFault::TimeBack { at })
            } else {
                None
            }
        }
        Said::Change { at, code, digits } => {
            change_fault(at, digits, declarations.size_of(code))
        }
        Said::Misplaced { at } => Some(VcdFault::Token { at }),
        Said::Unfinished { at } => Some(VcdFault::Truncated { at }),
    }
}

fn change_fault(at: u64, digits: &[u8], size: Option<u32>) -> Option<VcdFault>
    ensures { result ≡ change_fault at digits.now size }
{
    match size {
        Some(size) => {
            if (size as usize) < digits.len() {
                Some(VcdFault::TooWide { at })
            } else {
                None
            }
        }
        None => Some(VcdFault::BadCode { at }),
    }
}

// The last time, with what is said.
fn time_after(last: Option<u64>, said: Said) -> Option<u64>
    ensures { result ≡ option_or (time_of (item_of said.entry)) last }
{
    match said {
        Said::Time { time, .. } => Some(time),
        _ => last,
    }
}
