//! A netlist that can be evaluated.
ghost use Rattle.std.specs.Prelude.{◌≡◌, Some, length, map, slice_get};
ghost use Rattle.flat_net.specs.Nets.{IsNet};
ghost use Rattle.flat_net.specs.Values.{edge_value};
ghost use Rattle.levelise.specs.Evaluation.{HasValues};
ghost use Rattle.levelise.specs.Machine.{HasReset, known, machine};
ghost use Rattle.levelise.specs.Rows.{IsRow};
ghost use Rattle.levelise.specs.States.{AreStatesCounted};

use crate::placed::Placed;
use crate::values::{edge_bit, set_edges, set_values};
use bm_base::Bits;
use flat_net::{FlatNet, Setup};
use sqlite_items::Items;
use std::marker::Model;

/// A flat netlist without loops, how its runs begin, and its nodes in an order in which they can be evaluated.
#[derive(Drop)]
pub struct Levelled {
    net: FlatNet,
    setup: Setup,
    row: Items<Placed>,
}

impl Model for Levelled {
    ghost use Rattle.flat_net.specs.Nets.{IsNet};
    ghost use Rattle.levelise.specs.Machine.{HasReset, Level};
    ghost use Rattle.levelise.specs.Rows.{IsRow};

    ghost Value = { Level };

    ghost view = { λ it. record { net = it.net; setup = it.setup } };

    ghost invariant = { λ it. IsNet it.net × IsRow it.net.nodes it.row × HasReset it.net it.setup };
}

impl Levelled {
    /// The net with its nodes in this order.
    pub(crate) fn new(net: FlatNet, setup: Setup, row: Items<Placed>) -> Levelled
        requires row { IsRow net.nodes row }
        requires reset { HasReset net setup }
        ensures { result ≡ record { net = net; setup = setup } }
    {
        let _nodes = net.nodes();
        Levelled { net, setup, row }
    }

    pub fn net(&self) -> &FlatNet
        ensures { result.now ≡ self.now.net }
    {
        &self.net
    }

    /// How a run begins.
    pub(crate) fn setup(&self) -> Setup
        ensures setup { result ≡ self.now.setup }
        ensures reset { HasReset self.now.net result }
    {
        self.setup
    }

    /// Writes the state after a cycle with this state and this row to `next`. In `work` a bit for each node is changed.
    /// Takes no memory.
    pub fn step(&self, state: &Bits, row: &Bits, next: &mut Bits, work: &mut Bits)
        requires state { length state.now ≡ length self.now.net.power_up }
        requires row { length row.now ≡ self.now.net.inputs }
        requires next { length next.old ≡ length self.now.net.power_up }
        requires work { length work.old ≡ length self.now.net.nodes }
        ensures next { next.new ≡ (machine self.now).next state.now row.now }
        ensures count { length next.new ≡ length self.now.net.power_up }
        ensures work { length work.new ≡ length self.now.net.nodes }
    {
        self.evaluate(state, row, work);
        self.move_on(work, next);
    }

    /// Whether the cycle with this state and this row violates. In `work` a bit for each node is changed. Takes no
    /// memory.
    pub fn bad(&self, state: &Bits, row: &Bits, work: &mut Bits) -> bool
        requires state { length state.now ≡ length self.now.net.power_up }
        requires row { length row.now ≡ self.now.net.inputs }
        requires work { length work.old ≡ length self.now.net.nodes }
        ensures bad { result ≡ (machine self.now).bad state.now row.now }
        ensures work { length work.new ≡ length self.now.net.nodes }
    {
        self.evaluate(state, row, work);
        self.is_bad(work)
    }

    /// Does one cycle: writes the state after it to `next`, and says whether it violates. In `work` a bit for each node is
    /// changed. Takes no memory.
    pub fn cycle(&self, state: &Bits, row: &Bits, next: &mut Bits, work: &mut Bits) -> bool
        requires state { length state.now ≡ length self.now.net.power_up }
        requires row { length row.now ≡ self.now.net.inputs }
        requires next { length next.old ≡ length self.now.net.power_up }
        requires work { length work.old ≡ length self.now.net.nodes }
        ensures next { next.new ≡ (machine self.now).next state.now row.now }
        ensures bad { result ≡ (machine self.now).bad state.now row.now }
        ensures count { length next.new ≡ length self.now.net.power_up }
        ensures work { length work.new ≡ length self.now.net.nodes }
    {
        self.evaluate(state, row, work);
        self.move_on(work, next);
        self.is_bad(work)
    }

    /// How many bits a state has, one for each register.
    pub fn registers(&self) -> usize
        ensures count { result ≡ length self.now.net.power_up }
        ensures states { AreStatesCounted self.now }
    {
        self.net.power_up().len()
    }

    /// Sets the bit of each node to its value.
    pub(crate) fn evaluate(&self, state: &Bits, row: &Bits, work: &mut Bits)
        requires state { length state.now ≡ length self.now.net.power_up }
        requires row { length row.now ≡ self.now.net.inputs }
        requires work { length work.old ≡ length self.now.net.nodes }
        ensures values { HasValues self.now.net state.now row.now work.new }
        ensures net { IsNet self.now.net }
    {
        set_values(self.row.as_slice(), state, row, work);
    }

    /// Writes the next state, by the values of the nodes.
    pub(crate) fn move_on(&self, work: &Bits, next: &mut Bits)
        requires next { length next.old ≡ length self.now.net.power_up }
        requires work { length work.now ≡ length self.now.net.nodes }
        ensures { next.new ≡ map (λ edge. known (edge_value (slice_get work.now) edge)) self.now.net.next }
    {
        set_edges(self.net.next(), work, next);
    }

    /// Whether the checker is 1, by the values of the nodes.
    pub(crate) fn is_bad(&self, work: &Bits) -> bool
        requires { length work.now ≡ length self.now.net.nodes }
        ensures { edge_value (slice_get work.now) self.now.net.bad ≡ Some result }
    {
        edge_bit(self.net.bad(), work)
    }
}
