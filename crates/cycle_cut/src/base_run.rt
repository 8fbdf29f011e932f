//! The run of a trace as it is, which the runs without one of its cycles are compared with.
ghost use Rattle.std.specs.Prelude.{◌≡◌, ◌<◌, drop, length};
ghost use Rattle.levelise.specs.Machine.{machine};
ghost use Rattle.trace_rows.specs.Cut.{cut};
ghost use Rattle.cycle_cut.specs.Runs.{HasRoom, IsBase, IsRun};
ghost use Rattle.cycle_cut.specs.Violations.{Turns, violates_from};

use crate::spare::Spare;
use crate::violations::{first_violation, violations_end};
use bm_base::Bits;
use levelise::{Levelled, States};
use std::mem;
use trace_rows::Trace;

/// The run of a trace, with its states and the places of its violations.
#[derive(Drop)]
pub(crate) struct BaseRun<'a> {
    net: &'a Levelled,
    trace: &'a Trace,
    states: &'a States,
    /// How many cycles come before the first that violates.
    first: usize,
    /// How many cycles there are up to the last that violates, with it.
    end: usize,
    ghost told: { IsBase net.now trace.now states.now first end },
}

impl<'a> BaseRun<'a> {
    pub(crate) fn of(
        net: &'a Levelled,
        trace: &'a Trace,
        states: &'a States,
        work: &mut Bits,
    ) -> BaseRun<'a>
        requires run { IsRun net.now trace.now states.now }
        requires work { length work.old ≡ length net.now.net.nodes }
        ensures net { result.net.now ≡ net.now }
        ensures trace { result.trace.now ≡ trace.now }
        ensures work { length work.new ≡ length net.now.net.nodes }
    {
        let first = first_violation(net, trace, states, work);
        let end = violations_end(net, trace, states, work);
        BaseRun {
            net,
            trace,
            states,
            first,
            end,
        }
    }

    /// Whether the trace without this cycle violates. Takes no memory.
    ///
    /// That run is the same up to the cycle, so it is done from there on, and only as long as it differs.
    pub(crate) fn violates_without(&self, cycle: usize, spare: &mut Spare) -> bool
        requires within { cycle < length self.now.trace.now.rows }
        requires room { HasRoom self.now.net.now spare.old }
        ensures violates { result ≡ violates_from (machine self.now.net.now) (machine self.now.net.now).start
            (cut self.now.trace.now.rows cycle) }
        ensures room { HasRoom self.now.net.now spare.new }
    {
        if self.first < cycle {
            return true;
        }
        let place = cycle + 1;
        if place == self.trace.len() {
            return false;
        }
        let state = self.states.get(cycle);
        match self.turn(place, state, &mut spare.before, &mut spare.work) {
            Some(answer) => answer,
            None => self.violates_onwards(place + 1, spare),
        }
    }

    // Whether the rows from a place on violate, where the state before them is in `spare`.
    fn violates_onwards(&self, from: usize, spare: &mut Spare) -> bool
        requires room { HasRoom self.now.net.now spare.old }
        ensures violates { result ≡ violates_from (machine self.now.net.now) spare.old.before
            (drop from self.now.trace.now.rows) }
        ensures room { HasRoom self.now.net.now spare.new }
    {
        for place in from..self.trace.len() {
            let known = self.turn(place, &spare.before, &mut spare.after, &mut spare.work);
            if let Some(answer) = known {
                return answer;
            }
            mem::swap(&mut spare.before, &mut spare.after);
        }
        false
    }

    // Does the cycle at a place from a state. Where it is known by then whether the rows from there on violate, that is the
    // answer: the cycle violates, or the state is the one that the run as it is has there. Else the next state is written.
    fn turn(&self, place: usize, state: &Bits, next: &mut Bits, work: &mut Bits) -> Option<bool>
        requires within { place < length self.now.trace.now.rows }
        requires state { length state.now ≡ length self.now.net.now.net.power_up }
        requires next { length next.old ≡ length self.now.net.now.net.power_up }
        requires work { length work.old ≡ length self.now.net.now.net.nodes }
        ensures turns { Turns (machine self.now.net.now) self.now.trace.now.rows place state.now next.new result }
        ensures next { length next.new ≡ length self.now.net.now.net.power_up }
        ensures work { length work.new ≡ length self.now.net.now.net.nodes }
    {
        if state.same(self.states.get(place)) {
            return Some(place < self.end);
        }
        if self.net.cycle(state, self.trace.row(place), next, work) {
            return Some(true);
        }
        None
    }
}
