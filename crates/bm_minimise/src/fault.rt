ghost use Rattle.std.specs.Prelude.{◌≡◌};
ghost use Rattle.bm_minimise.specs.declared.fault.MinFault.TheVariants.{Memory};

use bm_base::NoMemory;
use std::alloc::{AllocError, AllocFailed};

/// Why there is no shorter trace: no cycle violates, or there is no memory.
#[derive(Clone, Copy, Debug, PartialEq, Eq)]
pub enum MinFault {
    NoViolation,
    Memory,
}

impl From<NoMemory> for MinFault {
    ghost from_gives = { λ _ fault. fault ≡ Memory };

    fn from(_: NoMemory) -> MinFault {
        MinFault::Memory
    }
}

impl From<AllocError> for MinFault {
    ghost from_gives = { λ _ fault. fault ≡ Memory };

    fn from(_: AllocError) -> MinFault {
        MinFault::Memory
    }
}

impl<T: Drop> From<AllocFailed<T>> for MinFault {
    ghost from_gives = { λ _ fault. fault ≡ Memory };

    fn from(_: AllocFailed<T>) -> MinFault {
        MinFault::Memory
    }
}
