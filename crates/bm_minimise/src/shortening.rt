//! From a trace to a shorter one.
ghost use Rattle.std.specs.Prelude.{◌≡◌, IfErr, IfOk};
ghost use Rattle.cycle_cut.specs.Cuts.{IsAccepted};
ghost use Rattle.levelise.specs.Machine.{machine};
ghost use Rattle.bm_minimise.specs.Shortened.{IsNoViolation, IsShortened};

use crate::MinFault;
use crate::cutting::cut_off;
use crate::deletion::delete_cycles;
use levelise::Levelled;
use std::alloc::Global;
use trace_rows::Trace;

/// Cuts the trace off after its first violating cycle and deletes every cycle that can go: without any one of those that
/// are left, no cycle violates.
pub fn shorten(alloc: Global, net: &Levelled, t: Trace) -> Result<Trace, MinFault>
    requires width { t.width ≡ net.now.net.inputs }
    ensures width { IfOk result (λ made. made.width ≡ t.width) }
    ensures accepted { IfOk result (λ made. IsAccepted (machine net.now) made.rows) }
    ensures shorter { IfOk result (λ made. IsShortened (machine net.now) t.rows made.rows) }
    ensures none { IfErr result (IsNoViolation (machine net.now) t.rows) }
{
    let trace = cut_off(alloc, net, t)?;
    Ok(delete_cycles(alloc, net, trace)?)
}
