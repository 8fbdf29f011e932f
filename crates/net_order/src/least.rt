//! The least node that reads itself.
ghost use Rattle.std.specs.Prelude.{IfOk};
ghost use Rattle.net_loops.specs.Loops.{ReadsItself};
ghost use Rattle.net_order.specs.Faults.{IsLeastLoop};

use crate::parting::loops_of;
use bm_base::NoMemory;
use flat_net::FlatNet;
use std::alloc::Global;

/// The least node that reads itself, where this one does.
pub(crate) fn least_loop(alloc: Global, net: &FlatNet, looped: u32) -> Result<u32, NoMemory>
    requires reads { ReadsItself net.now.nodes looped }
    ensures { IfOk result (IsLeastLoop net.now.nodes) }
{
    let marks = loops_of(alloc, net)?;
    for node in 0..looped {
        if marks.get(node as usize) {
            return Ok(node);
        }
    }
    Ok(looped)
}
