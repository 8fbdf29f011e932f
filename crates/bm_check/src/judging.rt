//! What is found of a trace, by the rules in their order.
ghost use Rattle.std.specs.Prelude.{◌≡◌, ◌↔◌, IfOk, IsTrue, length};
ghost use Rattle.levelise.specs.Machine.{machine};
ghost use Rattle.trace_rows.specs.Events.{event_count};
ghost use Rattle.trace_rows.specs.Run.{IsFirstAtLast};
ghost use Rattle.bm_check.specs.Verdicts.{IsVerdict};
ghost use Rattle.bm_check.specs.declared.verdict.Verdict.TheVariants.{Yes};

use crate::verdict::{Reason, Verdict};
use bm_base::NoMemory;
use cycle_cut::first_cut;
use levelise::Levelled;
use std::alloc::Global;
use trace_rows::Trace;

/// Whether the trace violates first at its last cycle, and no longer without any one of its cycles. The first reason
/// against it is given.
pub fn judge_trace(alloc: Global, net: &Levelled, t: &Trace) -> Result<Verdict, NoMemory>
    requires { t.now.width ≡ net.now.net.inputs }
    ensures { IfOk result (IsVerdict (machine net.now) t.now.rows) }
{
    if !is_first_at_last(alloc, net, t)? {
        return Ok(Verdict::No(Reason::NotFirstAtLast));
    }
    let states = net.states(alloc, t)?;
    match first_cut(alloc, net, t, &states, 0)? {
        Some(cycle) => Ok(Verdict::No(Reason::Cut {
            cycle: cycle as u64,
        })),
        None => Ok(accepted(alloc, net, t)?),
    }
}

// That the trace is accepted, with its numbers of cycles and events.
fn accepted(alloc: Global, net: &Levelled, t: &Trace) -> Result<Verdict, NoMemory>
    requires { t.now.width ≡ net.now.net.inputs }
    ensures { IfOk result (λ verdict. verdict ≡ Yes (length t.now.rows) (event_count (machine net.now).base t.now.rows)) }
{
    let base = net.base(alloc)?;
    Ok(Verdict::Yes {
        cycles: t.len() as u64,
        events: t.events(&base),
    })
}

// Whether the last cycle is the first that violates.
fn is_first_at_last(alloc: Global, net: &Levelled, t: &Trace) -> Result<bool, NoMemory>
    requires { t.now.width ≡ net.now.net.inputs }
    ensures { IfOk result (λ is. IsTrue is ↔ IsFirstAtLast (machine net.now) t.now.rows) }
{
    let cycles = t.len();
    match net.first_bad(alloc, t)? {
        Some(cycle) => Ok(cycle + 1 == cycles),
        None => Ok(false),
    }
}
