ghost use Rattle.std.specs.Prelude.{◌≡◌, ◌++◌, ◌∷◌, ◌<◌, ◌≤◌, [], IfNone, OnSome, length};
ghost use Rattle.vcd_reader.specs.Body.{behind_end, items, with_code, without_code};
ghost use Rattle.vcd_reader.specs.Said.{item_of, said_by};
ghost use Rattle.vcd_header.specs.Tokens.{tok_of};

use crate::form::{Form, form_of};
use vcd_header::{Token, Tokens, is_code, skip_section};

/// What a body says. Each place is the byte offset of a token.
#[derive(Clone, Copy)]
pub(crate) enum Said<'a> {
    Time {
        at: u64,
        time: u64,
    },
    /// The variables of a code get digits, the left one first.
    Change {
        at: u64,
        code: &'a [u8],
        digits: &'a [u8],
    },
    /// A token that has no form where it stands.
    Misplaced {
        at: u64,
    },
    /// A value without its code, or a section without its `$end`, at the file's end.
    Unfinished {
        at: u64,
    },
}

/// Takes what the body says next.
pub(crate) fn next_item<'a>(tokens: &mut Tokens<'a>) -> Option<Said<'a>>
    ensures said { items tokens.old ≡ said_by result ++ items tokens.new }
    ensures none { IfNone result (items tokens.old ≡ []) }
    ensures shorter { OnSome result (length tokens.new < length tokens.old) }
{
    while let Some(token) = tokens.next() {
        if let Some(said) = said_of(token, tokens) {
            return Some(said);
        }
    }
    None
}

// What a token says, with those that it takes.
fn said_of<'a>(token: Token<'a>, tokens: &mut Tokens<'a>) -> Option<Said<'a>>
    ensures said { items (tok_of token.entry ∷ tokens.old) ≡ said_by result ++ items tokens.new }
    ensures shorter { length tokens.new ≤ length tokens.old }
{
    let at = token.at;
    match form_of(token.text) {
        Form::Time(time) => Some(Said::Time { at, time }),
        Form::Scalar => Some(Said::Change {
            at,
            code: &token.text[1..],
            digits: &token.text[..1],
        }),
        Form::Vector => Some(with_code(token, tokens)),
        Form::Real => without_code(token, tokens),
        Form::Passed => None,
        Form::Section => skipped(token, tokens),
        Form::Wrong => Some(Said::Misplaced { at }),
    }
}

fn with_code<'a>(value: Token<'a>, tokens: &mut Tokens<'a>) -> Said<'a>
    requires { 1 ≤ length value.text.now }
    ensures said { with_code (tok_of value.entry) tokens.old ≡ item_of result ∷ items tokens.new }
    ensures shorter { length tokens.new ≤ length tokens.old }
{
    match tokens.next() {
        Some(code) => {
            if is_code(code.text) {
                Said::Change {
                    at: value.at,
                    code: code.text,
                    digits: &value.text[1..],
                }
            } else {
                Said::Misplaced { at: code.at }
            }
        }
        None => Said::Unfinished { at: value.at },
    }
}

fn without_code<'a>(value: Token<'a>, tokens: &mut Tokens<'a>) -> Option<Said<'a>>
    ensures said { without_code (tok_of value.entry) tokens.old ≡ said_by result ++ items tokens.new }
    ensures shorter { length tokens.new ≤ length tokens.old }
{
    match tokens.next() {
        Some(code) => {
            if is_code(code.text) {
                None
            } else {
                Some(Said::Misplaced { at: code.at })
            }
        }
        None => Some(Said::Unfinished { at: value.at }),
    }
}

fn skipped<'a>(section: Token<'a>, tokens: &mut Tokens<'a>) -> Option<Said<'a>>
    ensures said { behind_end (tok_of section.entry) tokens.old ≡ said_by result ++ items tokens.new }
    ensures shorter { length tokens.new ≤ length tokens.old }
{
    if skip_section(tokens) {
        None
    } else {
        Some(Said::Unfinished { at: section.at })
    }
}
