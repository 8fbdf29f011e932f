//! The bits that one token stands for.
ghost use Rattle.std.specs.Prelude.{◌≡◌, IfOk};
ghost use Rattle.vlog_tokens.specs.Toks.{tok_of};
ghost use Rattle.vlog_tree.specs.Spelling.Numbers.{bits_of};
ghost use Rattle.vlog_numbers.specs.Values as spec;
ghost use Rattle.vlog_numbers.specs.Values.{Means};

use crate::based::based_row;
use crate::fault::Fault;
use crate::row::Row;
use bm_base::{Bits, NoMemory};
use std::alloc::Global;
use vlog_tokens::{Token, TokenKind};

/// The 32 bits of a value, the least first.
pub fn word_bits(alloc: Global, value: u32) -> Result<Bits, NoMemory>
    ensures { IfOk result (λ bits. bits ≡ bits_of 32 value) }
{
    let mut row = Row::new(alloc, 32)?;
    row.push(value as u128, 32);
    Ok(row.bits)
}

/// The 32 bits of a based token by itself, the least first. Its digits have to fit them.
#[tactic(auto, unfolding(crate::specs::Values::unsized_of))]
pub fn unsized_bits(alloc: Global, token: Token) -> Result<Bits, Fault>
    ensures { Means (spec.unsized_of (tok_of token.entry)) result }
{
    if token.kind != TokenKind::Based {
        return Err(Fault::Token);
    }
    let row = based_row(alloc, token.text, 32)?;
    if row.fits {
        Ok(row.bits)
    } else {
        Err(Fault::Token)
    }
}

/// The bits of a based token behind a size, the least first: its digits, cut off or extended with zeros.
#[tactic(auto, unfolding(crate::specs::Values::sized_of))]
pub fn sized_bits(alloc: Global, token: Token, width: usize) -> Result<Bits, Fault>
    ensures { Means (spec.sized_of width (tok_of token.entry)) result }
{
    if token.kind != TokenKind::Based {
        return Err(Fault::Token);
    }
    Ok(based_row(alloc, token.text, width)?.bits)
}
