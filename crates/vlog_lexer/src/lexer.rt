//! `lex`, and what it gives.
ghost use Rattle.std.specs.Prelude.{◌≡◌, ◌⊎◌, List, IfErr, IfOk, length};
ghost use Rattle.vlog_tokens.specs.Tokens.{AreTokens};
ghost use Rattle.vlog_tokens.specs.Toks.{Tok, toks};
ghost use Rattle.vlog_lexer.specs.Faults.{FailsAt, fault_of};
ghost use Rattle.vlog_lexer.specs.declared.fault.LexFault.{LexFault};
ghost use Rattle.vlog_lexer.specs.declared.fault.LexFault.TheVariants.{Memory};

use crate::fault::LexFault;
use crate::form::piece_end;
use crate::kept::Kept;
use crate::row::row_at;
use std::alloc::Global;
use std::marker::Model;
use vlog_tokens::{Row, Token, TokenKind};

/// The tokens of a source, in order, seen by contracts as their list and the source's length.
#[derive(Drop)]
pub struct Tokens<'a> {
    list: Vec<Token<'a>>,
    len: u64,
}

impl<'a> Model for Tokens<'a> {
    ghost use Rattle.vlog_tokens.specs.Toks.{Lexed, toks};

    ghost Value = { Lexed };

    ghost view = { λ tokens. record { list = toks tokens.list.items; source_len = tokens.len } };
}

impl<'a> Tokens<'a> {
    /// The tokens in order, without those of attributes. They do not overlap.
    pub fn list(&self) -> &[Token<'a>]
        ensures { toks result.now ≡ self.now.list }
    {
        &self.list
    }

    /// How many bytes the source has.
    pub fn source_len(&self) -> u64
        ensures { result ≡ self.now.source_len }
    {
        self.len
    }
}

/// The tokens of the source, or the first place at which none can start and nothing blank stands.
pub fn lex<'a>(alloc: Global, src: &'a [u8]) -> Result<Tokens<'a>, LexFault>
    ensures spelled { IfOk result (λ tokens. AreTokens src.now tokens.list × (tokens.source_len ≡ length src.now)) }
    ensures refused { IfErr result (λ fault. FailsAt src.now fault ⊎ (fault ≡ Memory)) }
    ensures whole { (tokens : List Tok) → AreTokens src.now tokens
        → (result ≡ Ok (record { list = tokens; source_len = length src.now })) ⊎ (result ≡ Err Memory) }
    ensures fails { (fault : LexFault) → FailsAt src.now fault → (result ≡ Err fault) ⊎ (result ≡ Err Memory) }
{
    let mut kept = Kept::new(alloc);
    let mut at = 0;
    while at < src.len() {
        let row = row_at(src, at);
        let Some(end) = piece_end(src, at, row) else {
            return Err(fault_of(row, at));
        };
        kept.take(row, at, &src[at..end])?;
        at = end;
    }
    Ok(Tokens {
        list: kept.list,
        len: src.len() as u64,
    })
}

// Why no piece stands at the place.
fn fault_of(row: Row, at: usize) -> LexFault
    ensures { result ≡ fault_of row at }
{
    let at = at as u64;
    match row {
        Row::BlockComment => LexFault::OpenComment { at },
        Row::Directive => LexFault::Directive { at },
        Row::Token(TokenKind::Text) => LexFault::OpenString { at },
        _ => LexFault::BadByte { at },
    }
}
