//! The nodes of a net in an order.
ghost use Rattle.std.specs.Prelude.{◌≡◌, IfOk};
ghost use Rattle.levelise.specs.Rows.{IsRow};
ghost use Rattle.net_order.specs.Orders.{IsOrder};

use bm_base::NoMemory;
use flat_net::{FlatNet, Node};
use net_order::Order;
use sqlite_items::Items;
use std::alloc::Global;

/// A node, and its number.
#[derive(Clone, Copy, Debug, PartialEq, Eq)]
pub(crate) struct Placed {
    pub(crate) number: u32,
    pub(crate) node: Node,
}

/// The nodes in this order.
pub(crate) fn placed_by(
    alloc: Global,
    net: &FlatNet,
    order: &Order,
) -> Result<Items<Placed>, NoMemory>
    requires { IsOrder net.now.nodes order.now }
    ensures { IfOk result (IsRow net.now.nodes) }
{
    let mut row = Items::new(alloc);
    let nodes = net.nodes();
    for number in order.numbers() {
        row.push(Placed {
            number: *number,
            node: nodes[*number as usize],
        })?;
    }
    Ok(row)
}
