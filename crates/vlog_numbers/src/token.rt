//! What one token stands for.
ghost use Rattle.std.specs.Prelude.{◌≡◌, Option, option_map};
ghost use Rattle.std.specs.Str.{bytes_eq};
ghost use Rattle.vlog_tokens.specs.Toks.{tok_of};
ghost use Rattle.vlog_tree.specs.Spelling.Parts.{terminal};
ghost use Rattle.vlog_numbers.specs.Terminals as spec;

use crate::digits::decimal_at_most;
use vlog_tokens::{Token, TokenKind};
use vlog_words::is_reserved;

/// The reserved word or mark that the token is, and nothing for any other token.
pub fn terminal<'a>(token: Token<'a>) -> &'a [u8]
    ensures { result.now ≡ terminal (tok_of token.entry) }
{
    match token.kind {
        TokenKind::Word if is_reserved(token.text) => token.text,
        TokenKind::Mark => token.text,
        _ => &[],
    }
}

/// Whether the token is this reserved word or mark. Only a word that is the same text is looked up among the reserved.
pub fn is_terminal(token: Token, text: &str) -> bool
    ensures { result ≡ bytes_eq (terminal (tok_of token.entry)) text.now }
{
    if !text.is_empty() && token.text != text.as_bytes() {
        return false;
    }
    terminal(token) == text.as_bytes()
}

/// The name that the token is: a word that is not reserved, or what follows the backslash of an escaped name.
#[tactic(auto, unfolding(crate::specs::Terminals::name_of))]
pub fn name_of<'a>(token: Token<'a>) -> Option<&'a [u8]>
    ensures { option_map (λ name. name.now) result ≡ spec.name_of (tok_of token.entry) }
{
    match token.kind {
        TokenKind::Word if !is_reserved(token.text) => Some(token.text),
        TokenKind::Escaped => token.text.strip_prefix(b"\\"),
        _ => None,
    }
}

/// Whether a number may be a size or a replication count.
pub fn is_size(value: u32) -> bool
    ensures { result ≡ spec.is_size value }
{
    1 <= value && value <= 4096
}

/// The value of the decimal that the token is, if it is one between these.
#[tactic(auto, unfolding(crate::specs::Terminals::decimal_between))]
pub fn decimal_between(token: Token, least: u32, most: u32) -> Option<u32>
    ensures { result ≡ spec.decimal_between least most (tok_of token.entry) }
{
    if token.kind != TokenKind::Decimal {
        return None;
    }
    let value = decimal_at_most(token.text, most as u128)? as u32;
    if value < least { None } else { Some(value) }
}
