//! How deep tokens nest.
ghost use Rattle.std.specs.Prelude.{◌≡◌, ◌≤◌, ◌+◌, filter, map};
ghost use Rattle.vlog_tokens.specs.Toks.{toks};
ghost use Rattle.vlog_words.specs.Words.{begins_with, is_text_among};
ghost use Rattle.vlog_parse.specs.Nest as spec;

use vlog_numbers::terminal;
use vlog_tokens::Token;
use vlog_words::is_among;

/// The place of the first token at which the nest count passes 500.
pub fn too_deep_at(tokens: &[Token]) -> Option<u64>
    ensures { result ≡ spec.too_deep_at (toks tokens.now) }
{
    let mut open = 0;
    let mut operators = 0;
    let mut ifs = 0;
    for token in tokens {
        let text = terminal(*token);
        open = open_after(open, text);
        operators = operators_after(operators, text);
        ifs = ifs_after(ifs, text);
        if open + operators + ifs > 500 {
            return Some(token.at);
        }
    }
    None
}

// How many are open after the token.
fn open_after(count: u32, text: &[u8]) -> u32
    requires { count ≤ 500 }
    ensures value { result ≡ spec.open_after count text.now }
    ensures small { result ≤ 501 }
{
    if is_opening(text) {
        count + 1
    } else if is_closing(text) {
        count.saturating_sub(1)
    } else {
        count
    }
}

// How many operators there are since the last `;`.
fn operators_after(count: u32, text: &[u8]) -> u32
    requires { count ≤ 500 }
    ensures value { result ≡ spec.operators_after count text.now }
    ensures small { result ≤ 501 }
{
    if text == b";".as_slice() {
        0
    } else if is_operator(text) {
        count + 1
    } else {
        count
    }
}

// How many `if` there are since the last `always`.
fn ifs_after(count: u32, text: &[u8]) -> u32
    requires { count ≤ 500 }
    ensures value { result ≡ spec.ifs_after count text.now }
    ensures small { result ≤ 501 }
{
    if text == b"always".as_slice() {
        0
    } else if text == b"if".as_slice() {
        count + 1
    } else {
        count
    }
}

fn is_opening(text: &[u8]) -> bool
    ensures { result ≡ is_text_among spec.openings text.now }
{
    match text {
        [first, ..] => is_among(opening_row(*first), text),
        [] => false,
    }
}

fn opening_row(first: u8) -> &'static [&'static str]
    ensures { map (λ word. word.now) result.now ≡ filter (begins_with first) spec.openings }
{
    match first {
        b'(' => &["("],
        b'{' => &["{"],
        b'b' => &["begin"],
        _ => &[],
    }
}

fn is_closing(text: &[u8]) -> bool
    ensures { result ≡ is_text_among spec.closings text.now }
{
    match text {
        [first, ..] => is_among(closing_row(*first), text),
        [] => false,
    }
}

fn closing_row(first: u8) -> &'static [&'static str]
    ensures { map (λ word. word.now) result.now ≡ filter (begins_with first) spec.closings }
{
    match first {
        b')' => &[")"],
        b'}' => &["}"],
        b'e' => &["end"],
        _ => &[],
    }
}

fn is_operator(text: &[u8]) -> bool
    ensures { result ≡ is_text_among spec.operators text.now }
{
    match text {
        [first, ..] => is_among(operator_row(*first), text),
        [] => false,
    }
}

fn operator_row(first: u8) -> &'static [&'static str]
    ensures { map (λ word. word.now) result.now ≡ filter (begins_with first) spec.operators }
{
    match first {
        b'~' => &["~", "~&", "~|", "~^"],
        b'!' => &["!", "!="],
        b'&' => &["&", "&&"],
        b'|' => &["|", "||"],
        b'^' => &["^", "^~"],
        b'=' => &["=="],
        b'?' => &["?"],
        _ => &[],
    }
}
