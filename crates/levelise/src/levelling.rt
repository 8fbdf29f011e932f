//! From a net to its machine.
ghost use Rattle.std.specs.Prelude.{◌≡◌, ℕ, IfErr, IfOk, OnOk};
ghost use Rattle.levelise.specs.Machine.{HasReset};
ghost use Rattle.net_loops.specs.Loops.{ReadsItself};
ghost use Rattle.net_order.specs.Faults.{NamesLeast};

use crate::LevelFault;
use crate::levelled::Levelled;
use crate::placed::placed_by;
use flat_net::{FlatNet, Setup};
use net_order::order_of;
use std::alloc::Global;

/// The net with its nodes in an order in which they can be evaluated. There is one exactly where no node reads itself.
pub fn levelise(alloc: Global, net: FlatNet, setup: Setup) -> Result<Levelled, LevelFault>
    requires { HasReset net setup }
    ensures level { IfOk result (λ levelled. levelled ≡ record { net = net; setup = setup }) }
    ensures none { OnOk result ((node : ℕ) → ReadsItself net.nodes node → ⊥) }
    ensures least { IfErr result (NamesLeast net.nodes) }
{
    let order = order_of(alloc, &net)?;
    let row = placed_by(alloc, &net, &order)?;
    Ok(Levelled::new(net, setup, row))
}
