//! The deletion of the cycles that a violation does not need.
ghost use Rattle.std.specs.Prelude.{◌≡◌, ◌⊎◌, ◌<◌, IfErr, IfOk, OnOk, length};
ghost use Rattle.std.specs.Bool.{OnFalse, OnTrue};
ghost use Rattle.cycle_cut.specs.Cuts.{IsAccepted};
ghost use Rattle.levelise.specs.Machine.{machine};
ghost use Rattle.trace_rows.specs.Cut.{cut};
ghost use Rattle.trace_rows.specs.Minimal.{NoCutViolates};
ghost use Rattle.trace_rows.specs.Run.{IsFirstAtLast, Violates};
ghost use Rattle.bm_minimise.specs.declared.fault.MinFault.TheVariants.{Memory as MemoryFault};

use crate::MinFault;
use crate::cutting::cut_off;
use cycle_cut::first_cut;
use levelise::Levelled;
use std::alloc::Global;
use trace_rows::Trace;

/// Deletes cycles until each that is left is needed: without any one of them, no cycle violates.
pub(crate) fn delete_cycles(
    alloc: Global,
    net: &Levelled,
    mut trace: Trace,
) -> Result<Trace, MinFault>
    requires width { trace.width ≡ net.now.net.inputs }
    requires first { IsFirstAtLast (machine net.now) trace.rows }
    ensures width { IfOk result (λ made. made.width ≡ trace.width) }
    ensures accepted { IfOk result (λ made. IsAccepted (machine net.now) made.rows) }
    ensures kept { IfOk result (λ made. (made.rows ≡ trace.rows) ⊎ (length made.rows < length trace.rows)) }
    ensures fault { IfErr result (λ fault. fault ≡ MemoryFault) }
{
    while delete_pass(alloc, net, &mut trace)? {}
    Ok(trace)
}

// Goes over the cycles once and deletes each that can go. Says whether there was one.
fn delete_pass(alloc: Global, net: &Levelled, trace: &mut Trace) -> Result<bool, MinFault>
    requires width { trace.old.width ≡ net.now.net.inputs }
    requires first { IsFirstAtLast (machine net.now) trace.old.rows }
    ensures width { trace.new.width ≡ trace.old.width }
    ensures first { OnOk result (IsFirstAtLast (machine net.now) trace.new.rows) }
    ensures shorter { IfOk result (λ any. OnTrue any (length trace.new.rows < length trace.old.rows)) }
    ensures same { IfOk result (λ any. OnFalse any (trace.new ≡ trace.old)) }
    ensures minimal { IfOk result (λ any. OnFalse any (NoCutViolates (machine net.now) trace.new.rows)) }
    ensures fault { IfErr result (λ fault. fault ≡ MemoryFault) }
{
    let mut any = false;
    let mut place = 0;
    let mut states = net.states(alloc, trace)?;
    while let Some(i) = first_cut(alloc, net, trace, &states, place)? {
        delete(alloc, net, trace, i)?;
        states = net.states(alloc, trace)?;
        place = i;
        any = true;
    }
    Ok(any)
}

// Deletes a cycle that can go, and cuts the trace off after its first violating cycle.
fn delete(alloc: Global, net: &Levelled, trace: &mut Trace, i: usize) -> Result<(), MinFault>
    requires width { trace.old.width ≡ net.now.net.inputs }
    requires within { i < length trace.old.rows }
    requires goes { Violates (machine net.now) (cut trace.old.rows i) }
    ensures width { trace.new.width ≡ trace.old.width }
    ensures first { OnOk result (IsFirstAtLast (machine net.now) trace.new.rows) }
    ensures shorter { OnOk result (length trace.new.rows < length trace.old.rows) }
    ensures fault { IfErr result (λ fault. fault ≡ MemoryFault) }
{
    let copy = trace.cut_copy(alloc, i)?;
    *trace = cut_off(alloc, net, copy)?;
    Ok(())
}
