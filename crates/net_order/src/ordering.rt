//! An order of evaluation.
ghost use Rattle.std.specs.Prelude.{◌≡◌, ℕ, IfErr, IfOk, OnOk};
ghost use Rattle.net_loops.specs.Loops.{ReadsItself};
ghost use Rattle.net_order.specs.Faults.{NamesLeast};
ghost use Rattle.net_order.specs.Orders.{IsOrder};

use crate::OrderFault;
use crate::least::least_loop;
use crate::placing::place_all;
use crate::walk::Walk;
use flat_net::FlatNet;
use sqlite_items::Items;
use std::alloc::Global;
use std::marker::Model;

/// The numbers of all nodes of a flat netlist, each after all that it reads.
#[derive(Debug, Drop)]
pub struct Order {
    numbers: Items<u32>,
}

impl Model for Order {
    ghost use Rattle.std.specs.Prelude.{List, ℕ};

    ghost Value = { List ℕ };

    ghost view = { λ order. order.numbers };
}

impl Order {
    pub fn numbers(&self) -> &[u32]
        ensures { result.now ≡ self.now }
    {
        self.numbers.as_slice()
    }
}

/// An order in which the nodes can be evaluated. There is one exactly where no node reads itself; otherwise the least
/// node that does is named. Takes time and memory that grow with the number of nodes, in each case.
pub fn order_of(alloc: Global, net: &FlatNet) -> Result<Order, OrderFault>
    ensures order { IfOk result (λ order. IsOrder net.now.nodes order) }
    ensures none { OnOk result ((node : ℕ) → ReadsItself net.now.nodes node → ⊥) }
    ensures least { IfErr result (NamesLeast net.now.nodes) }
{
    let mut walk = Walk::new(alloc, net.nodes().len())?;
    match place_all(net, &mut walk) {
        Ok(()) => Ok(Order {
            numbers: walk.into_order(),
        }),
        Err(OrderFault::Loop { node }) => Err(OrderFault::Loop {
            node: least_loop(alloc, net, node)?,
        }),
        Err(OrderFault::Memory) => Err(OrderFault::Memory),
    }
}
