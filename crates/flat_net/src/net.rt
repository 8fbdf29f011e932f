ghost use Rattle.std.specs.Prelude.{◌≡◌, length};
ghost use Rattle.flat_net.specs.Nets.{IsNet};

use crate::{Edge, Node};
use bm_base::Bits;
use sqlite_items::Items;
use std::marker::Model;

/// A flat netlist: nodes of one bit, the state of which are the registers. Node 0 is `Zero`, then the inputs stand in
/// their order, then the registers in theirs, and each later node is a `Buf`, an `And` or an `Xor`. Every edge names a
/// node, before or after its own.
#[derive(Debug, Drop)]
pub struct FlatNet {
    nodes: Items<Node>,
    next: Items<Edge>,
    bad: Edge,
    inputs: u32,
    power_up: Bits,
}

impl Model for FlatNet {
    ghost use Rattle.flat_net.specs.Nets.{IsNet, Net};

    ghost Value = { Net };

    ghost view = { λ net. record {
      nodes = net.nodes;
      next = net.next;
      bad = net.bad;
      inputs = net.inputs;
      power_up = net.power_up;
    } };

    ghost invariant = { λ net. IsNet record {
      nodes = net.nodes;
      next = net.next;
      bad = net.bad;
      inputs = net.inputs;
      power_up = net.power_up;
    } };
}

impl FlatNet {
    /// The net of these parts. Takes no memory.
    pub fn new(
        nodes: Items<Node>,
        next: Items<Edge>,
        bad: Edge,
        inputs: u32,
        power_up: Bits,
    ) -> FlatNet
        requires { IsNet record { nodes = nodes; next = next; bad = bad; inputs = inputs; power_up = power_up } }
        ensures { result ≡ record { nodes = nodes; next = next; bad = bad; inputs = inputs; power_up = power_up } }
    {
        FlatNet {
            nodes,
            next,
            bad,
            inputs,
            power_up,
        }
    }

    pub fn nodes(&self) -> &[Node]
        ensures nodes { result.now ≡ self.now.nodes }
        ensures net { IsNet self.now }
    {
        self.nodes.as_slice()
    }

    /// What each register has after a cycle, in the order of the registers.
    pub fn next(&self) -> &[Edge]
        ensures { result.now ≡ self.now.next }
    {
        self.next.as_slice()
    }

    /// The checker: a cycle violates where it is 1.
    pub fn bad(&self) -> Edge
        ensures { result ≡ self.now.bad }
    {
        self.bad
    }

    /// How many inputs there are.
    pub fn inputs(&self) -> u32
        ensures { result ≡ self.now.inputs }
    {
        self.inputs
    }

    /// What each register has at power-up.
    pub fn power_up(&self) -> &Bits
        ensures { result.now ≡ self.now.power_up }
    {
        &self.power_up
    }
}
