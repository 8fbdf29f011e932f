//! The tokens that are left of those read so far, without those of attributes.
ghost use Rattle.std.specs.Prelude.{◌≡◌, List, [], ◌∷◌, ◌++◌, IfErr, IfOk};
ghost use Rattle.vlog_tokens.specs.Attributes.{closes, opens};
ghost use Rattle.vlog_tokens.specs.Toks.{Tok, tok_of, toks};
ghost use Rattle.vlog_tokens.specs.Tokens.{token_of};
ghost use Rattle.vlog_lexer.specs.Leaves.{Leaves};
ghost use Rattle.vlog_lexer.specs.declared.fault.LexFault.TheVariants.{Memory};

use crate::fault::LexFault;
use std::alloc::Global;
use vlog_tokens::{Row, Token};

#[derive(Drop)]
pub struct Kept<'a> {
    pub list: Vec<Token<'a>>,
    // the number of the first `(*` that no `*)` has closed yet
    opened: Option<usize>,
}

impl<'a> Kept<'a> {
    pub fn new(alloc: Global) -> Kept<'a>
        ensures { Leaves [] (toks result.list.items) result.opened }
    {
        Kept {
            list: Vec::new(alloc),
            opened: None,
        }
    }

    /// Takes in what stands at the place, if it is a token.
    pub fn take(&mut self, row: Row, at: usize, text: &'a [u8]) -> Result<(), LexFault>
        ensures taken { IfOk result (λ _. (raw : List Tok) → Leaves raw (toks self.old.list.items) self.old.opened
            → Leaves (raw ++ token_of row at text.now) (toks self.new.list.items) self.new.opened) }
        ensures memory { IfErr result (λ fault. fault ≡ Memory) }
    {
        match row {
            Row::Token(kind) => self.push(Token {
                kind,
                at: at as u64,
                text,
            }),
            _ => Ok(()),
        }
    }

    fn push(&mut self, token: Token<'a>) -> Result<(), LexFault>
        ensures taken { IfOk result (λ _. (raw : List Tok) → Leaves raw (toks self.old.list.items) self.old.opened
            → Leaves (raw ++ tok_of token.entry ∷ []) (toks self.new.list.items) self.new.opened) }
        ensures memory { IfErr result (λ fault. fault ≡ Memory) }
    {
        match self.opened {
            Some(first) => {
                if is_close(token) {
                    self.list.truncate(first);
                    self.opened = None;
                } else {
                    self.list.push(token)?;
                }
                Ok(())
            }
            None => {
                let count = self.list.len();
                self.list.push(token)?;
                if is_open(token) {
                    self.opened = Some(count);
                }
                Ok(())
            }
        }
    }
}

fn is_open(token: Token) -> bool
    ensures { result ≡ opens (tok_of token.entry) }
{
    token.text == b"(*".as_slice()
}

fn is_close(token: Token) -> bool
    ensures { result ≡ closes (tok_of token.entry) }
{
    token.text == b"*)".as_slice()
}
