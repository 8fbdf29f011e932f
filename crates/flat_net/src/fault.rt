ghost use Rattle.std.specs.Prelude.{◌≡◌};
ghost use Rattle.flat_net.specs.declared.fault.FlatFault.TheVariants.{Memory};

use bm_base::{NoMemory, Size};
use std::alloc::{AllocError, AllocFailed};

/// Why a design has no flat netlist: a size of it passes its limit, or there is no memory.
#[derive(Clone, Copy, Debug, PartialEq, Eq)]
pub enum FlatFault {
    TooLarge { what: Size },
    Memory,
}

impl From<NoMemory> for FlatFault {
    ghost from_gives = { λ _ fault. fault ≡ Memory };

    fn from(_: NoMemory) -> FlatFault {
        FlatFault::Memory
    }
}

impl From<AllocError> for FlatFault {
    ghost from_gives = { λ _ fault. fault ≡ Memory };

    fn from(_: AllocError) -> FlatFault {
        FlatFault::Memory
    }
}

impl<T: Drop> From<AllocFailed<T>> for FlatFault {
    ghost from_gives = { λ _ fault. fault ≡ Memory };

    fn from(_: AllocFailed<T>) -> FlatFault {
        FlatFault::Memory
    }
}
