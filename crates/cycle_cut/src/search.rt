//! The search for a cycle that can go.
ghost use Rattle.std.specs.Prelude.{◌≡◌, IfOk};
ghost use Rattle.levelise.specs.Machine.{machine};
ghost use Rattle.levelise.specs.States.{states_of};
ghost use Rattle.cycle_cut.specs.Cuts.{IsFirstCut};

use crate::base_run::BaseRun;
use crate::spare::Spare;
use bm_base::NoMemory;
use levelise::{Levelled, States};
use std::alloc::Global;
use trace_rows::Trace;

/// The first cycle, from this one on, without which the trace still violates.
///
/// All memory is taken at the beginning. A cycle costs only the rows over which the run without it differs.
pub fn first_cut(
    alloc: Global,
    net: &Levelled,
    t: &Trace,
    states: &States,
    from: usize,
) -> Result<Option<usize>, NoMemory>
    requires width { t.now.width ≡ net.now.net.inputs }
    requires states { states.now ≡ states_of (machine net.now) t.now.rows }
    ensures { IfOk result (λ found. IsFirstCut (machine net.now) t.now.rows from found) }
{
    let mut spare = Spare::new(alloc, net)?;
    let _registers = net.registers();
    let base = BaseRun::of(net, t, states, &mut spare.work);
    for i in from..t.len() {
        if base.violates_without(i, &mut spare) {
            return Ok(Some(i));
        }
    }
    Ok(None)
}
