ghost use Rattle.std.specs.Prelude.{◌≡◌};
ghost use Rattle.vlog_parse.specs.declared.parse_fault.ParseFault.TheVariants.{Memory};

use bm_base::NoMemory;
use thiserror::Error;

/// Why tokens give no design. Each place is a byte offset.
#[derive(Clone, Copy, Debug, PartialEq, Eq, Error)]
pub enum ParseFault {
    /// The first reserved word that the profile leaves out.
    #[error("the word at byte {at} is outside the profile")]
    Outside { at: u64 },
    /// The first number outside the rules.
    #[error("the number at byte {at} is outside the rules")]
    Number { at: u64 },
    /// The first token at which the nest count passes 500.
    #[error("the token at byte {at} is too deep")]
    TooDeep { at: u64 },
    /// A token that does not fit, or the source's length where a token is missing.
    #[error("the token at byte {at} does not fit")]
    Syntax { at: u64 },
    #[error("out of memory")]
    Memory,
}

impl From<NoMemory> for ParseFault {
    ghost from_gives = { λ _ fault. fault ≡ Memory };

    fn from(_: NoMemory) -> ParseFault {
        ParseFault::Memory
    }
}
