//! Where the run of a trace violates.
ghost use Rattle.std.specs.Prelude.{◌≡◌, ◌<◌, Some, length, slice_get};
ghost use Rattle.levelise.specs.Machine.{machine};
ghost use Rattle.trace_rows.specs.Run.{checks};
ghost use Rattle.cycle_cut.specs.Runs.{IsRun};
ghost use Rattle.cycle_cut.specs.Violations.{IsViolatedFrom, IsViolatedUpTo};

use bm_base::Bits;
use levelise::{Levelled, States};
use trace_rows::Trace;

/// How many cycles come before the first that violates: all of them if none does.
pub(crate) fn first_violation(net: &Levelled, t: &Trace, states: &States, work: &mut Bits) -> usize
    requires run { IsRun net.now t.now states.now }
    requires work { length work.old ≡ length net.now.net.nodes }
    ensures first { IsViolatedFrom (machine net.now) t.now.rows result }
    ensures work { length work.new ≡ length net.now.net.nodes }
{
    for i in 0..t.len() {
        if violates_at(net, t, states, i, work) {
            return i;
        }
    }
    t.len()
}

/// How many cycles there are up to the last that violates, with it: none of them if none does.
pub(crate) fn violations_end(net: &Levelled, t: &Trace, states: &States, work: &mut Bits) -> usize
    requires run { IsRun net.now t.now states.now }
    requires work { length work.old ≡ length net.now.net.nodes }
    ensures end { IsViolatedUpTo (machine net.now) t.now.rows result }
    ensures work { length work.new ≡ length net.now.net.nodes }
{
    let mut end = t.len();
    while end > 0 {
        if violates_at(net, t, states, end - 1, work) {
            return end;
        }
        end -= 1;
    }
    0
}

// Whether a cycle violates: the checker's bit.
fn violates_at(net: &Levelled, t: &Trace, states: &States, i: usize, work: &mut Bits) -> bool
    requires run { IsRun net.now t.now states.now }
    requires within { i < length t.now.rows }
    requires work { length work.old ≡ length net.now.net.nodes }
    ensures bit { slice_get (checks (machine net.now) t.now.rows) i ≡ Some result }
    ensures work { length work.new ≡ length net.now.net.nodes }
{
    net.bad(states.get(i), t.row(i), work)
}
