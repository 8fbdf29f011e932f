//! The work of `check`.
ghost use Rattle.std.specs.Prelude.{◌≡◌, IfErr, IfOk};
ghost use Rattle.bm_check.specs.Verdicts.{IsVerdict};
ghost use Rattle.bm_words.specs.Asked.{given_inputs};
ghost use Rattle.bm_words.specs.Words.{check};
ghost use Rattle.bm_inputs.specs.Counts.{OthersStay};
ghost use Rattle.levelise.specs.Machine.{machine};
ghost use Rattle.bm_cli.specs.Commands.{reads_of, writes_of};
ghost use Rattle.bm_cli.specs.Ends.{Gives, Stops, counted};
ghost use Rattle.bm_cli.specs.Stops.{IsJudged};
ghost use Rattle.bm_cli.specs.declared.answer.Answer.TheVariants.{Accepted as Judged};

use crate::answer::{Accepted, Refusal, Stop};
use bm_base::Shelf;
use bm_check::{Verdict, judge_trace};
use bm_inputs::read_inputs;
use bm_words::Inputs;
use levelise::Levelled;
use std::alloc::Global;
use trace_rows::Trace;

/// Reads the netlist and the trace, and says whether the trace violates first at its last cycle with no cycle to spare.
pub fn check<F: Shelf>(alloc: Global, asked: &Inputs<'_>, shelf: &mut F) -> Result<Accepted, Stop>
    ensures answers { IfOk result (λ numbers. Gives (check (given_inputs asked.now)) (F.held shelf.old)
        (F.held shelf.new) (Judged numbers)) }
    ensures stops { IfErr result (Stops (check (given_inputs asked.now)) (F.held shelf.old) (F.held shelf.new)
        (counted (F.reads shelf.old) (F.reads shelf.new) (F.writes shelf.old) (F.writes shelf.new))) }
    ensures reads { OthersStay (reads_of (check (given_inputs asked.now))) (F.reads shelf.old) (F.reads shelf.new) }
    ensures writes { OthersStay (writes_of (check (given_inputs asked.now))) (F.writes shelf.old) (F.writes shelf.new) }
{
    machine_laws::laws::runs();
    let input = read_inputs(alloc, asked, shelf)?;
    judge(alloc, &input.level, &input.trace)
}

// Whether the trace is accepted, and else the first reason against it.
fn judge(alloc: Global, level: &Levelled, trace: &Trace) -> Result<Accepted, Stop>
    requires { trace.now.width ≡ level.now.net.inputs }
    ensures { IsJudged (machine level.now) trace.now.rows result }
{
    match judge_trace(alloc, level, trace)? {
        Verdict::Yes { cycles, events } => Ok(Accepted { cycles, events }),
        Verdict::No(reason) => Err(Stop::Refused(Refusal::Judged(reason))),
    }
}
