//! Numbers outside the rules.
ghost use Rattle.std.specs.Prelude.{◌≡◌, IfOk};
ghost use Rattle.vlog_tokens.specs.Toks.{tok_of, toks};
ghost use Rattle.vlog_tokens.specs.declared.token.TokenKind.TheVariants as kind;
ghost use Rattle.vlog_numbers.specs.NumberFaults as spec;
ghost use Rattle.vlog_numbers.specs.Values.{sees_based};

use crate::based::based_row;
use crate::fault::Fault;
use crate::token::{decimal_between, is_terminal};
use bm_base::NoMemory;
use std::alloc::Global;
use vlog_tokens::{Token, TokenKind};

/// What the token before is to a number.
#[derive(Clone, Copy, PartialEq, Eq)]
pub enum Before {
    Other,
    Brace,
    Decimal,
}

/// The place of the first decimal or based token that breaks a rule of numbers.
#[tactic(auto, unfolding(crate::specs::NumberFaults::number_fault_after))]
pub fn number_fault_at(alloc: Global, tokens: &[Token]) -> Result<Option<u64>, NoMemory>
    ensures { IfOk result (λ at. at ≡ spec.number_fault_at (toks tokens.now)) }
{
    let mut before = Before::Other;
    let mut rest = tokens;
    while let [token, after @ ..] = rest {
        if breaks(alloc, before, *token, after)? {
            return Ok(Some(token.at));
        }
        before = before_of(*token);
        rest = after;
    }
    Ok(None)
}

fn before_of(token: Token) -> Before
    ensures { result ≡ spec.before_of (tok_of token.entry) }
{
    if token.kind == TokenKind::Decimal {
        Before::Decimal
    } else if is_terminal(token, "{") {
        Before::Brace
    } else {
        Before::Other
    }
}

#[tactic(auto, unfolding(crate::specs::NumberFaults::breaks))]
fn breaks(alloc: Global, before: Before, token: Token, after: &[Token]) -> Result<bool, NoMemory>
    ensures { IfOk result (λ r. r ≡ spec.breaks before (tok_of token.entry) (toks after.now)) }
{
    match token.kind {
        TokenKind::Decimal => Ok(decimal_breaks(before, token, after)),
        TokenKind::Based => based_breaks(alloc, before, token),
        _ => Ok(false),
    }
}

fn decimal_breaks(before: Before, token: Token, after: &[Token]) -> bool
    ensures { result ≡ spec.decimal_breaks before (tok_of token.entry) (toks after.now) }
{
    if is_count(before, after) {
        decimal_between(token, 1, 4096).is_none()
    } else {
        decimal_between(token, 0, 2147483647).is_none()
    }
}

fn is_count(before: Before, after: &[Token]) -> bool
    ensures { result ≡ spec.is_count before (toks after.now) }
{
    sees_based(after) || before == Before::Brace && sees_brace(after)
}

fn sees_based(tokens: &[Token]) -> bool
    ensures { result ≡ sees_based (toks tokens.now) }
{
    match tokens {
        [first, ..] => first.kind == TokenKind::Based,
        [] => false,
    }
}

fn sees_brace(tokens: &[Token]) -> bool
    ensures { result ≡ spec.sees_brace (toks tokens.now) }
{
    match tokens {
        [first, ..] => is_terminal(*first, "{"),
        [] => false,
    }
}

#[tactic(auto, unfolding(crate::specs::Values::unsized_of))]
fn based_breaks(alloc: Global, before: Before, token: Token) -> Result<bool, NoMemory>
    ensures { IfOk result (λ r. token.entry.kind ≡ kind.Based → r ≡ spec.breaks_based before (tok_of token.entry)) }
{
    match based_row(alloc, token.text, 32) {
        Ok(row) => Ok(before != Before::Decimal && !row.fits),
        Err(Fault::Token) => Ok(true),
        Err(Fault::Memory) => Err(NoMemory),
    }
}
