//! A trace up to its first violation.
ghost use Rattle.std.specs.Prelude.{◌≡◌, IfErr, IfOk};
ghost use Rattle.levelise.specs.Machine.{machine};
ghost use Rattle.bm_minimise.specs.Shortened.{IsCutOff, IsNoViolation};

use crate::MinFault;
use levelise::Levelled;
use std::alloc::Global;
use trace_rows::Trace;

/// Cuts the trace off after its first violating cycle.
pub(crate) fn cut_off(alloc: Global, net: &Levelled, mut t: Trace) -> Result<Trace, MinFault>
    requires { t.width ≡ net.now.net.inputs }
    ensures width { IfOk result (λ made. made.width ≡ t.width) }
    ensures cut_off { IfOk result (λ made. IsCutOff (machine net.now) t.rows made.rows) }
    ensures none { IfErr result (IsNoViolation (machine net.now) t.rows) }
{
    let _count = t.len();
    match net.first_bad(alloc, &t)? {
        Some(cycle) => {
            t.keep(cycle + 1);
            Ok(t)
        }
        None => Err(MinFault::NoViolation),
    }
}
