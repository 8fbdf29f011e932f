ghost use Rattle.std.specs.Prelude.{◌≡◌};
ghost use Rattle.vcd_header.specs.declared.fault.VcdFault.TheVariants.{Memory};

use bm_base::{Name, NoMemory, Size};
use std::alloc::{AllocError, AllocFailed};

/// Why bytes are no waveform for some labels. Each place is a byte offset.
#[derive(Debug, Drop)]
pub enum VcdFault {
    /// A token that has no form where it stands, or the first token of a section of the header that breaks its form.
    Token { at: u64 },
    /// The file ends in the section or value that begins here, or before the end of the header.
    Truncated { at: u64 },
    /// A time below the one before.
    TimeBack { at: u64 },
    /// A change of a code that is not declared, or the declaration of a code that was declared with another size.
    BadCode { at: u64 },
    /// A change with more digits than its variable has bits.
    TooWide { at: u64 },
    /// No scope has the name that was asked for or, without one, gives every bit.
    NoScope,
    /// The scope that was asked for does not give all bits of the clock or the port of this name.
    NoSignal { name: Name },
    /// There is no time.
    NoTime,
    /// There are too many rows, bits in all rows, or bits of all states.
    Limit { what: Size },
    /// A read of the shelf failed.
    Read,
    Memory,
}

impl From<NoMemory> for VcdFault {
    ghost from_gives = { λ _ fault. fault ≡ Memory };

    fn from(_: NoMemory) -> VcdFault {
        VcdFault::Memory
    }
}

impl From<AllocError> for VcdFault {
    ghost from_gives = { λ _ fault. fault ≡ Memory };

    fn from(_: AllocError) -> VcdFault {
        VcdFault::Memory
    }
}

impl<T: Drop> From<AllocFailed<T>> for VcdFault {
    ghost from_gives = { λ _ fault. fault ≡ Memory };

    fn from(_: AllocFailed<T>) -> VcdFault {
        VcdFault::Memory
    }
}
