//! Runs of the machine.
ghost use Rattle.std.specs.Prelude.{◌≡◌, ◌<◌, IfOk, fold, length, position, replicate};
ghost use Rattle.levelise.specs.Machine.{machine, next, row_with};
ghost use Rattle.levelise.specs.States.{states_of};
ghost use Rattle.trace_rows.specs.Run.{checks};

use crate::levelled::Levelled;
use crate::states::States;
use bm_base::{Bits, NoMemory};
use flat_net::Reset;
use std::alloc::Global;
use trace_rows::Trace;

impl Levelled {
    /// The state that each run starts from.
    pub fn start(&self, alloc: Global) -> Result<Bits, NoMemory>
        ensures start { IfOk result (λ state. state ≡ (machine self.now).start) }
        ensures count { IfOk result (λ state. length state ≡ length self.now.net.power_up) }
    {
        let state = self.net().power_up().clone()?;
        match self.setup().reset {
            Some(reset) => self.after_reset(alloc, state, reset),
            None => Ok(state),
        }
    }

    /// The row that events are counted from, in which the reset is not active.
    pub fn base(&self, alloc: Global) -> Result<Bits, NoMemory>
        ensures { IfOk result (λ row. row ≡ (machine self.now).base) }
    {
        match self.setup().reset {
            Some(reset) => self.row_with(alloc, reset, !reset.active),
            None => Ok(Bits::zeros(alloc, self.net().inputs() as usize)?),
        }
    }

    // The row that has the reset at a value, and 0 elsewhere.
    fn row_with(&self, alloc: Global, reset: Reset, value: bool) -> Result<Bits, NoMemory>
        requires { reset.bit < self.now.net.inputs }
        ensures { IfOk result (λ row. row ≡ row_with self.now.net reset.bit value) }
    {
        let mut row = Bits::zeros(alloc, self.net().inputs() as usize)?;
        row.set(reset.bit as usize, value);
        Ok(row)
    }

    fn after_reset(&self, alloc: Global, state: Bits, reset: Reset) -> Result<Bits, NoMemory>
        requires reset { reset.bit < self.now.net.inputs }
        requires state { length state ≡ length self.now.net.power_up }
        ensures after { IfOk result (λ after. after ≡ fold (next self.now.net) state
            (replicate self.now.setup.cycles (row_with self.now.net reset.bit reset.active))) }
        ensures count { IfOk result (λ after. length after ≡ length self.now.net.power_up) }
    {
        let row = self.row_with(alloc, reset, reset.active)?;
        self.after_rows(alloc, state, &row, self.setup().cycles)
    }

    // The state after so many cycles with one row.
    fn after_rows(
        &self,
        alloc: Global,
        state: Bits,
        row: &Bits,
        cycles: u32,
    ) -> Result<Bits, NoMemory>
        requires row { length row.now ≡ self.now.net.inputs }
        requires state { length state ≡ length self.now.net.power_up }
        ensures after { IfOk result (λ after. after ≡ fold (next self.now.net) state (replicate cycles row.now)) }
        ensures count { IfOk result (λ after. length after ≡ length self.now.net.power_up) }
    {
        let mut work = self.work(alloc)?;
        let mut before = state;
        let mut after = Bits::zeros(alloc, before.len())?;
        for _cycle in 0..cycles {
            self.step(&before, row, &mut after, &mut work);
            let old = before;
            before = after;
            after = old;
        }
        Ok(before)
    }

    /// A bit for each node, to work with.
    pub fn work(&self, alloc: Global) -> Result<Bits, NoMemory>
        ensures { IfOk result (λ work. length work ≡ length self.now.net.nodes) }
    {
        Ok(Bits::zeros(alloc, self.net().nodes().len())?)
    }

    /// The states in which the cycles of a trace begin, and the one after the last row.
    pub fn states(&self, alloc: Global, t: &Trace) -> Result<States, NoMemory>
        requires { t.now.width ≡ self.now.net.inputs }
        ensures { IfOk result (λ states. states ≡ states_of (machine self.now) t.now.rows) }
    {
        let mut states = States::new(alloc);
        let mut work = self.work(alloc)?;
        let mut before = self.start(alloc)?;
        let mut after = Bits::zeros(alloc, before.len())?;
        states.push(&before)?;
        for i in 0..t.len() {
            self.step(&before, t.row(i), &mut after, &mut work);
            let old = before;
            before = after;
            after = old;
            states.push(&before)?;
        }
        Ok(states)
    }

    /// The first cycle that violates.
    pub fn first_bad(&self, alloc: Global, t: &Trace) -> Result<Option<usize>, NoMemory>
        requires { t.now.width ≡ self.now.net.inputs }
        ensures { IfOk result (λ first. first ≡ position (λ bit. bit) (checks (machine self.now) t.now.rows)) }
    {
        let mut work = self.work(alloc)?;
        let mut before = self.start(alloc)?;
        let mut after = Bits::zeros(alloc, before.len())?;
        for i in 0..t.len() {
            self.evaluate(&before, t.row(i), &mut work);
            if self.is_bad(&work) {
                return Ok(Some(i));
            }
            self.move_on(&work, &mut after);
            let old = before;
            before = after;
            after = old;
        }
        Ok(None)
    }
}
