//! The tokens that are left to read, and the steps that every rule is made of.

ghost use Rattle.std.specs.Prelude.{◌≡◌, ◌<◌, drop, length, OnOk};
ghost use Rattle.vlog_tokens.specs.Toks.{toks};
ghost use Rattle.vlog_tree.specs.Spelling.Parts.{place_of};
ghost use Rattle.vlog_numbers.specs.Values.{sees_based};
ghost use Rattle.vlog_parse.specs.Looks as looks;
ghost use Rattle.vlog_parse.specs.Reads as spec;
ghost use Rattle.vlog_parse.specs.Reads.{Reads, ReadsToken};
ghost use Rattle.vlog_parse.specs.Terminals as terminals;

use bm_base::Name;
use std::alloc::Global;
use std::marker::Model;
use vlog_numbers::{Fault, decimal_between, is_terminal, name_of, terminal};
use vlog_tokens::{Token, TokenKind};

/// The tokens that are left, seen by contracts as their list. A rule that fails leaves it at the token that does not
/// fit.
#[derive(Drop)]
pub struct Cursor<'t, 'a> {
    rest: &'t [Token<'a>],
}

impl<'t, 'a> Model for Cursor<'t, 'a> {
    ghost use Rattle.std.specs.Prelude.{List};
    ghost use Rattle.vlog_tokens.specs.Toks.{Tok, toks};

    ghost Value = { List Tok };

    ghost view = { λ cursor. toks cursor.rest.now };
}

impl<'t, 'a> Cursor<'t, 'a> {
    pub fn new(tokens: &'t [Token<'a>]) -> Cursor<'t, 'a>
        ensures { result ≡ toks tokens.now }
    {
        Cursor { rest: tokens }
    }

    pub fn is_empty(&self) -> bool
        ensures { result ≡ spec.is_end self.now }
    {
        self.rest.is_empty()
    }

    /// Whether the next token is based.
    pub fn sees_based(&self) -> bool
        ensures { result ≡ sees_based self.now }
    {
        match self.rest {
            [first, ..] => first.kind == TokenKind::Based,
            [] => false,
        }
    }

    /// Whether the token after the next is based.
    pub fn sees_size(&self) -> bool
        ensures { result ≡ looks.sees_size self.now }
    {
        match self.rest {
            [_, second, ..] => second.kind == TokenKind::Based,
            _ => false,
        }
    }

    /// The next token, which is left.
    pub fn peek(&self) -> Result<Token<'a>, Fault>
        ensures { ReadsToken (looks.peek self.now) result self.now }
    {
        match self.rest {
            [first, ..] => Ok(*first),
            [] => Err(Fault::Token),
        }
    }

    /// Passes over the next token.
    pub fn skip(&mut self)
        ensures { self.new ≡ drop 1 self.old }
    {
        if let [_, rest @ ..] = self.rest {
            self.rest = rest;
        }
    }

    /// The place of the next token, 0 at the end.
    pub fn place(&self) -> u64
        ensures { result ≡ place_of self.now }
    {
        match self.rest {
            [first, ..] => first.at,
            [] => 0,
        }
    }

    /// Whether the next token is this reserved word or mark.
    pub fn sees(&self, text: &str) -> bool
        ensures { result ≡ spec.sees text.now self.now }
    {
        match self.rest {
            [first, ..] => is_terminal(*first, text),
            [] => false,
        }
    }

    /// The next token, which has to be this reserved word or mark.
    #[tactic(auto, unfolding(crate::specs::Reads::expect, crate::specs::Reads::take_if))]
    pub fn expect(&mut self, text: &str) -> Result<Token<'a>, Fault>
        ensures reads { ReadsToken (spec.expect text.now self.old) result self.new }
        ensures consumes { OnOk result (length self.new < length self.old) }
    {
        match self.rest {
            [first, rest @ ..] if is_terminal(*first, text) => {
                self.rest = rest;
                Ok(*first)
            }
            _ => Err(Fault::Token),
        }
    }

    /// The next token, which has to be a name.
    #[tactic(auto, unfolding(crate::specs::Reads::take_if, crate::specs::Terminals::name))]
    pub fn name(&mut self, alloc: Global) -> Result<Name, Fault>
        ensures reads { Reads (terminals.name self.old) result self.new }
        ensures consumes { OnOk result (length self.new < length self.old) }
    {
        let [first, rest @ ..] = self.rest else {
            return Err(Fault::Token);
        };
        let Some(text) = name_of(*first) else {
            return Err(Fault::Token);
        };
        let name = Name::new(alloc, text)?;
        self.rest = rest;
        Ok(name)
    }

    /// The value of the next token, which has to be a decimal of at most 2147483647.
    #[tactic(auto, unfolding(crate::specs::Reads::take_if, crate::specs::Terminals::decimal))]
    pub fn decimal(&mut self) -> Result<u32, Fault>
        ensures reads { Reads (terminals.decimal self.old) result self.new }
        ensures consumes { OnOk result (length self.new < length self.old) }
    {
        let [first, rest @ ..] = self.rest else {
            return Err(Fault::Token);
        };
        let Some(value) = decimal_between(*first, 0, 2147483647) else {
            return Err(Fault::Token);
        };
        self.rest = rest;
        Ok(value)
    }

    /// The reserved word or mark that the next token is, and nothing where it is neither, and at the end.
    pub fn terminal(&self) -> &'a [u8]
        ensures { result.now ≡ spec.next_terminal self.now }
    {
        match self.rest {
            [first, ..] => terminal(*first),
            [] => &[],
        }
    }

    /// Whether the next token is a name.
    pub fn sees_name(&self) -> bool
        ensures { result ≡ looks.sees_name self.now }
    {
        match self.rest {
            [first, ..] => name_of(*first).is_some(),
            [] => false,
        }
    }

    /// Whether the next token is a decimal, and the one after it this reserved word or mark.
    pub fn sees_decimal_before(&self, text: &str) -> bool
        ensures { result ≡ looks.sees_decimal_before text.now self.now }
    {
        match self.rest {
            [first, second, ..] => {
                first.kind == TokenKind::Decimal && is_terminal(*second, text)
            }
            _ => false,
        }
    }

    /// Another cursor at the same place, to look ahead with.
    pub fn copy(&self) -> Cursor<'t, 'a>
        ensures { result ≡ self.now }
    {
        Cursor { rest: self.rest }
    }

    /// The next token, whatever it is.
    #[tactic(auto, unfolding(crate::specs::Looks::any_token, crate::specs::Reads::take_if))]
    pub fn take(&mut self) -> Result<Token<'a>, Fault>
        ensures reads { ReadsToken (looks.any_token self.old) result self.new }
        ensures consumes { OnOk result (length self.new < length self.old) }
    {
        let [first, rest @ ..] = self.rest else {
            return Err(Fault::Token);
        };
        self.rest = rest;
        Ok(*first)
    }
}
