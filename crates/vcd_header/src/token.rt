ghost use Rattle.std.specs.Prelude.{◌≡◌, ◌+◌, ◌≤◌, ◌<◌, [], ◌∷◌, drop, length, not, MatchOption, false};
ghost use Rattle.std.specs.List.{prefix_len};
ghost use Rattle.std.specs.Prelude.{slice_index};
ghost use Rattle.vcd_header.specs.Tokens.{is_blank, is_ink, tok_of, tokens_from};

use std::marker::Model;

/// A run of bytes that are not blank.
#[derive(Clone, Copy)]
pub struct Token<'a> {
    /// The byte offset of the first.
    pub at: u64,
    pub text: &'a [u8],
}

/// What is left of a waveform, seen by contracts as its tokens.
#[derive(Drop)]
pub struct Tokens<'a> {
    bytes: &'a [u8],
    at: usize,
}

impl<'a> Model for Tokens<'a> {
    ghost use Rattle.std.specs.Prelude.{List, drop, length, ◌≤◌};
    ghost use Rattle.vcd_header.specs.Tokens.{Tok, tokens_from};

    ghost Value = { List Tok };

    ghost view = { λ rest. tokens_from rest.at (drop rest.at rest.bytes.now) };

    ghost invariant = { λ rest. rest.at ≤ length rest.bytes.now };
}

impl<'a> Tokens<'a> {
    ghost use Rattle.vcd_header.specs.Tokens.{tokens};

    pub fn new(bytes: &'a [u8]) -> Tokens<'a>
        ensures { result ≡ tokens bytes.now }
    {
        Tokens { bytes, at: 0 }
    }

    /// Takes the next token.
    pub fn next(&mut self) -> Option<Token<'a>>
        ensures { MatchOption result ((self.old ≡ []) × (self.new ≡ [])) (λ token. self.old ≡ tok_of token ∷ self.new) }
    {
        let from = blank_end(self.bytes, self.at);
        if from == self.bytes.len() {
            self.at = from;
            return None;
        }
        let to = token_end(self.bytes, from);
        self.at = to;
        Some(Token {
            at: from as u64,
            text: &self.bytes[from..to],
        })
    }
}

// The first byte from the place on that is not blank.
fn blank_end(bytes: &[u8], from: usize) -> usize
    requires { from ≤ length bytes.now }
    ensures tokens { tokens_from result (drop result bytes.now) ≡ tokens_from from (drop from bytes.now) }
    ensures within { result ≤ length bytes.now }
    ensures ink { result < length bytes.now → is_blank (slice_index bytes.now result) ≡ false }
{
    let mut at = from;
    while at < bytes.len() && is_blank(bytes[at]) {
        at += 1;
    }
    at
}

// The first blank from the place on.
fn token_end(bytes: &[u8], from: usize) -> usize
    requires { from ≤ length bytes.now }
    ensures run { result ≡ from + prefix_len is_ink (drop from bytes.now) }
    ensures within { result ≤ length bytes.now }
{
    let mut at = from;
    while at < bytes.len() && !is_blank(bytes[at]) {
        at += 1;
    }
    at
}

fn is_blank(byte: u8) -> bool
    ensures { result ≡ is_blank byte }
{
    byte == b' ' || matches!(byte, 9..=13)
}
