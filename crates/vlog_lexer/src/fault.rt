ghost use Rattle.std.specs.Prelude.{◌≡◌};
ghost use Rattle.vlog_lexer.specs.declared.fault.LexFault.TheVariants.{Memory};

use std::alloc::AllocFailed;
use thiserror::Error;

/// Why a source has no tokens. Each place is a byte offset, the first at which no token and nothing blank stands.
#[derive(Clone, Copy, Debug, PartialEq, Eq, Error)]
pub enum LexFault {
    /// No token starts with this byte.
    #[error("no token starts at byte {at}")]
    BadByte { at: u64 },
    /// A `/*` without its `*/`.
    #[error("the comment at byte {at} has no end")]
    OpenComment { at: u64 },
    /// A quote without its end on the line.
    #[error("the string at byte {at} has no end on its line")]
    OpenString { at: u64 },
    /// A backquote with none of the five words directly after it.
    #[error("no directive stands at byte {at}")]
    Directive { at: u64 },
    #[error("out of memory")]
    Memory,
}

impl<T: Drop> From<AllocFailed<T>> for LexFault {
    ghost from_gives = { λ _ fault. fault ≡ Memory };

    fn from(_: AllocFailed<T>) -> LexFault {
        LexFault::Memory
    }
}
