ghost use Rattle.std.specs.Prelude.{◌≡◌, IfOk, IfSome, OnOk, is_some, map};
ghost use Rattle.std.specs.List.{after_first};
ghost use Rattle.vcd_header.specs.Sections.{inner, is_closed, is_end};
ghost use Rattle.vcd_header.specs.Tokens.{tok_of};

use crate::token::{Token, Tokens};
use bm_base::NoMemory;
use std::alloc::Global;

/// Takes all up to the next `$end`, and gives what stands before it. None where the file ends first.
pub(crate) fn section<'a>(
    alloc: Global,
    tokens: &mut Tokens<'a>,
) -> Result<Option<Vec<Token<'a>>>, NoMemory>
    ensures closed { IfOk result (λ inside. is_some inside ≡ is_closed tokens.old) }
    ensures inside { IfOk result (λ inside. IfSome inside (λ inside. map tok_of inside.items ≡ inner tokens.old)) }
    ensures rest { OnOk result (tokens.new ≡ after_first is_end tokens.old) }
{
    let mut inside = Vec::new(alloc);
    while let Some(token) = tokens.next() {
        if is_end(token) {
            return Ok(Some(inside));
        }
        inside.push(token)?;
    }
    Ok(None)
}

/// Takes all up to the next `$end`, and says whether there is one.
pub fn skip_section(tokens: &mut Tokens) -> bool
    ensures closed { result ≡ is_closed tokens.old }
    ensures rest { tokens.new ≡ after_first is_end tokens.old }
{
    while let Some(token) = tokens.next() {
        if is_end(token) {
            return true;
        }
    }
    false
}

pub(crate) fn is_end(token: Token) -> bool
    ensures { result ≡ is_end (tok_of token.entry) }
{
    token.text == b"$end".as_slice()
}
