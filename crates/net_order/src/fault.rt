ghost use Rattle.std.specs.Prelude.{◌≡◌};
ghost use Rattle.net_order.specs.declared.fault.OrderFault.TheVariants.{Memory};

use bm_base::NoMemory;
use std::alloc::{AllocError, AllocFailed};

/// Why a flat netlist has no order: a node reads itself, or there is no memory.
#[derive(Clone, Copy, Debug, PartialEq, Eq)]
pub enum OrderFault {
    Loop { node: u32 },
    Memory,
}

impl From<NoMemory> for OrderFault {
    ghost from_gives = { λ _ fault. fault ≡ Memory };

    fn from(_: NoMemory) -> OrderFault {
        OrderFault::Memory
    }
}

impl From<AllocError> for OrderFault {
    ghost from_gives = { λ _ fault. fault ≡ Memory };

    fn from(_: AllocError) -> OrderFault {
        OrderFault::Memory
    }
}

impl<T: Drop> From<AllocFailed<T>> for OrderFault {
    ghost from_gives = { λ _ fault. fault ≡ Memory };

    fn from(_: AllocFailed<T>) -> OrderFault {
        OrderFault::Memory
    }
}
