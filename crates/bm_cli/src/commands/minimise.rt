//! The work of `minimise`.
ghost use Rattle.std.specs.Prelude.{◌≡◌, ◌≤◌, ◌<◌, IfErr, IfOk, length};
ghost use Rattle.bm_base.specs.Size.{limit_of};
ghost use Rattle.bm_inputs.specs.Counts.{OthersStay};
ghost use Rattle.bm_inputs.specs.Reading.{reading_of};
ghost use Rattle.bm_words.specs.Asked.{request_of};
ghost use Rattle.bm_words.specs.Words.{minimise};
ghost use Rattle.levelise.specs.Machine.{machine};
ghost use Rattle.trace_rows.specs.Run.{IsFirstAtLast, checks};
ghost use Rattle.trace_rows.specs.Writable.{AreWritable};
ghost use Rattle.vcd_writer.specs.Value.{row_width};
ghost use Rattle.bm_cli.specs.Commands.{reads_of, writes_of};
ghost use Rattle.bm_cli.specs.Ends.{Gives, Stops, counted};
ghost use Rattle.bm_cli.specs.Minimised.{IsMinimised};
ghost use Rattle.bm_cli.specs.Stops.{StopsReducing};
ghost use Rattle.bm_cli.specs.declared.answer.Answer.TheVariants.{Minimised};

use crate::answer::{Stop, Summary};
use bm_base::{Bits, Fault, NoMemory, Shelf, Size};
use bm_files::write_file;
use bm_inputs::{Input, read_inputs};
use bm_minimise::shorten;
use bm_words::Minimise;
use levelise::Levelled;
use std::alloc::Global;
use trace_rows::Trace;
use vcd_laws::laws::written_is_read;
use vcd_writer::vcd_text;

/// Reads the netlist and the stimulus, and writes the stimulus cut off after its first violating cycle, without the
/// cycles that can go.
pub fn minimise<F: Shelf>(
    alloc: Global,
    asked: &Minimise<'_>,
    shelf: &mut F,
) -> Result<Summary, Stop>
    ensures answers { IfOk result (λ summary. Gives (minimise (request_of asked.now)) (F.held shelf.old)
        (F.held shelf.new) (Minimised summary)) }
    ensures stops { IfErr result (Stops (minimise (request_of asked.now)) (F.held shelf.old) (F.held shelf.new)
        (counted (F.reads shelf.old) (F.reads shelf.new) (F.writes shelf.old) (F.writes shelf.new))) }
    ensures reads { OthersStay (reads_of (minimise (request_of asked.now))) (F.reads shelf.old) (F.reads shelf.new) }
    ensures writes { OthersStay (writes_of (minimise (request_of asked.now))) (F.writes shelf.old)
        (F.writes shelf.new) }
{
    machine_laws::laws::runs();
    let input = read_inputs(alloc, &asked.inputs, shelf)?;
    let (text, summary) = reduce(alloc, input)?;
    match write_file(shelf, asked.out, &text) {
        Ok(()) => Ok(summary),
        Err(Fault::Failed) => Err(Stop::WriteFault),
        Err(Fault::Memory) => Err(Stop::Memory),
    }
}

// The text of the stimulus cut off after its first violating cycle and without the cycles that can go, with the
// checker's bit of each cycle.
fn reduce(alloc: Global, input: Input) -> Result<(Vec<u8>, Summary), Stop>
    requires writable { AreWritable input.labels }
    requires wide { row_width input.labels.ports ≡ input.level.net.inputs }
    requires width { input.trace.width ≡ input.level.net.inputs }
    requires cycles { length input.trace.rows ≤ limit_of Size.Cycles }
    ensures reduced { IfOk result (λ made. IsMinimised (machine input.level) input.labels (reading_of input)
        made.0.items made.1) }
    ensures stops { IfErr result (StopsReducing (machine input.level) input.trace.rows) }
{
    written_is_read();
    let Input {
        level,
        labels,
        trace,
        unknown,
    } = input;
    let base = level.base(alloc)?;
    let cycles_before = trace.len();
    let events_before = trace.events(&base);
    let made = shorten(alloc, &level, trace)?;
    let _width = made.width();
    let checks = checks_of(alloc, &level, &made)?;
    let text = vcd_text(alloc, &made, &labels, Some(&checks))?;
    let summary = Summary {
        cycles_before,
        events_before,
        cycles: made.len(),
        events: made.events(&base),
        unknown,
    };
    Ok((text, summary))
}

// The checker's bit of each cycle of a trace that violates in its last cycle alone.
fn checks_of(alloc: Global, level: &Levelled, trace: &Trace) -> Result<Bits, NoMemory>
    requires { IsFirstAtLast (machine level.now) trace.now.rows }
    ensures { IfOk result (λ bits. bits ≡ checks (machine level.now) trace.now.rows) }
{
    let mut checks = Bits::zeros(alloc, trace.len())?;
    checks.set(trace.len() - 1, true);
    Ok(checks)
}
