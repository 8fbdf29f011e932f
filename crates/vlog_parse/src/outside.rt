//! Reserved words that the profile leaves out.
ghost use Rattle.std.specs.Prelude.{◌≡◌};
ghost use Rattle.vlog_tokens.specs.Toks.{tok_of, toks};
ghost use Rattle.vlog_parse.specs.Outside.{is_outside, outside_at};

use vlog_tokens::{Token, TokenKind};
use vlog_words::is_outside_word;

/// The place of the first reserved word outside the profile.
pub fn outside_at(tokens: &[Token]) -> Option<u64>
    ensures { result ≡ outside_at (toks tokens.now) }
{
    for token in tokens {
        if is_outside(*token) {
            return Some(token.at);
        }
    }
    None
}

fn is_outside(token: Token) -> bool
    ensures { result ≡ is_outside (tok_of token.entry) }
{
    token.kind == TokenKind::Word && is_outside_word(token.text)
}
