//! Why a token is not read.
ghost use Rattle.std.specs.Prelude.{◌≡◌};
ghost use Rattle.vlog_numbers.specs.declared.fault.Fault.TheVariants.{Memory};

use bm_base::NoMemory;
use std::alloc::{AllocError, AllocFailed};

/// Why a token, or a rule of the grammar, was not read.
#[derive(Clone, Copy, Debug, PartialEq, Eq)]
pub enum Fault {
    /// The next token does not fit.
    Token,
    /// There is no memory.
    Memory,
}

impl From<NoMemory> for Fault {
    ghost from_gives = { λ _ fault. fault ≡ Memory };

    fn from(_: NoMemory) -> Fault {
        Fault::Memory
    }
}

impl From<AllocError> for Fault {
    ghost from_gives = { λ _ fault. fault ≡ Memory };

    fn from(_: AllocError) -> Fault {
        Fault::Memory
    }
}

impl<T: Drop> From<AllocFailed<T>> for Fault {
    ghost from_gives = { λ _ fault. fault ≡ Memory };

    fn from(_: AllocFailed<T>) -> Fault {
        Fault::Memory
    }
}
