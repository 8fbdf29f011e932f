//! Where the blank piece or the token ends that a place of a source begins.
ghost use Rattle.std.specs.Prelude.{◌≡◌, ◌==◌, ◌&&◌, not, ℕ, ◌+◌, ◌<◌, ◌≤◌, IfNone, IfSome, length};
ghost use Rattle.vlog_tokens.specs.Comments.{IsFirstClose};
ghost use Rattle.vlog_tokens.specs.Forms.{HasForm, IsBased, IsDirective, IsEscaped, IsMark, IsSystem, IsToken, base_at, digits_of};
ghost use Rattle.vlog_tokens.specs.Rows.{row_at};
ghost use Rattle.vlog_tokens.specs.Strings.{IsString};

use crate::class::run_end;
use crate::row::byte_at;
use crate::table::{is_directive, is_mark};
use vlog_tokens::{Class, Row, TokenKind};
use vlog_words::is_space;

/// Where that ends which stands at the place, if something does.
pub fn piece_end(source: &[u8], at: usize, row: Row) -> Option<usize>
    requires inside { at < length source.now }
    requires told { row ≡ row_at source.now at }
    ensures found { IfSome result (λ to. HasForm row source.now at to) }
    ensures within { IfSome result (λ to. (at < to) × (to ≤ length source.now)) }
    ensures none { IfNone result ((to : ℕ) → HasForm row source.now at to → ⊥) }
{
    match row {
        Row::Space => Some(at + 1),
        Row::LineComment => Some(run_end(Class::LineByte, source, at + 2)),
        Row::BlockComment => close_end(source, at + 2),
        Row::Directive => directive_end(source, at),
        Row::Token(kind) => token_end(source, at, kind),
    }
}

fn token_end(source: &[u8], at: usize, kind: TokenKind) -> Option<usize>
    requires inside { at < length source.now }
    ensures found { IfSome result (λ to. IsToken kind source.now at to) }
    ensures within { IfSome result (λ to. (at < to) × (to ≤ length source.now)) }
    ensures none { IfNone result ((to : ℕ) → IsToken kind source.now at to → ⊥) }
{
    match kind {
        TokenKind::Word => Some(run_end(Class::WordByte, source, at + 1)),
        TokenKind::Escaped => escaped_end(source, at),
        TokenKind::System => system_end(source, at),
        TokenKind::Decimal => Some(run_end(Class::DecimalByte, source, at + 1)),
        TokenKind::Based => based_end(source, at),
        TokenKind::Text => string_end(source, at + 1),
        TokenKind::Mark => mark_end(source, at),
    }
}

// Where the first `*/` from the place on ends.
fn close_end(source: &[u8], from: usize) -> Option<usize>
    requires { from ≤ length source.now }
    ensures found { IfSome result (λ to. IsFirstClose source.now from to) }
    ensures within { IfSome result (λ to. (from < to) × (to ≤ length source.now)) }
    ensures none { IfNone result ((to : ℕ) → IsFirstClose source.now from to → ⊥) }
{
    let mut at = from;
    while at < source.len() {
        if source[at] == b'*' && byte_at(source, at + 1) == b'/' {
            return Some(at + 2);
        }
        at += 1;
    }
    None
}

fn directive_end(source: &[u8], at: usize) -> Option<usize>
    requires { at < length source.now }
    ensures found { IfSome result (λ to. IsDirective source.now at to) }
    ensures within { IfSome result (λ to. (at < to) × (to ≤ length source.now)) }
    ensures none { IfNone result ((to : ℕ) → IsDirective source.now at to → ⊥) }
{
    let word_end = run_end(Class::WordByte, source, at + 1);
    if is_directive(&source[at + 1..word_end]) {
        Some(run_end(Class::LineByte, source, word_end))
    } else {
        None
    }
}

fn escaped_end(source: &[u8], at: usize) -> Option<usize>
    requires { at < length source.now }
    ensures found { IfSome result (λ to. IsEscaped source.now at to) }
    ensures within { IfSome result (λ to. (at < to) × (to ≤ length source.now)) }
    ensures none { IfNone result ((to : ℕ) → IsEscaped source.now at to → ⊥) }
{
    let end = run_end(Class::NameByte, source, at + 1);
    if end == at + 1 {
        return None;
    }
    if end < source.len() && !is_space(source[end]) {
        return None;
    }
    Some(end)
}

fn system_end(source: &[u8], at: usize) -> Option<usize>
    requires { at < length source.now }
    ensures found { IfSome result (λ to. IsSystem source.now at to) }
    ensures within { IfSome result (λ to. (at < to) × (to ≤ length source.now)) }
    ensures none { IfNone result ((to : ℕ) → IsSystem source.now at to → ⊥) }
{
    let end = run_end(Class::WordByte, source, at + 1);
    if at + 1 < end { Some(end) } else { None }
}

fn based_end(source: &[u8], at: usize) -> Option<usize>
    requires { at < length source.now }
    ensures found { IfSome result (λ to. IsBased source.now at to) }
    ensures within { IfSome result (λ to. (at < to) × (to ≤ length source.now)) }
    ensures none { IfNone result ((to : ℕ) → IsBased source.now at to → ⊥) }
{
    let base = base_at(source, at);
    match digits_of(byte_at(source, base)) {
        Some(digits) => {
            let first = run_end(Class::SpaceByte, source, base + 1);
            let end = run_end(digits, source, first);
            if first < end && byte_at(source, first) != b'_' {
                Some(end)
            } else {
                None
            }
        }
        None => None,
    }
}

// Where the letter of the base stands.
fn base_at(source: &[u8], at: usize) -> usize
    requires { at < length source.now }
    ensures value { result ≡ base_at source.now at }
    ensures near { (at < result) × (result ≤ length source.now) }
{
    let byte = byte_at(source, at + 1);
    if byte == b's' || byte == b'S' {
        at + 2
    } else {
        at + 1
    }
}

// The digits of the base with this letter.
fn digits_of(letter: u8) -> Option<Class>
    ensures { result ≡ digits_of letter }
{
    if letter == b'b' || letter == b'B' {
        Some(Class::BinaryDigit)
    } else if letter == b'o' || letter == b'O' {
        Some(Class::OctalDigit)
    } else if letter == b'd' || letter == b'D' {
        Some(Class::DecimalDigit)
    } else if letter == b'h' || letter == b'H' {
        Some(Class::HexDigit)
    } else {
        None
    }
}

// Where the string ends whose bytes begin at the place.
fn string_end(source: &[u8], from: usize) -> Option<usize>
    requires { from ≤ length source.now }
    ensures found { IfSome result (λ to. IsString source.now from to) }
    ensures within { IfSome result (λ to. (from < to) × (to ≤ length source.now)) }
    ensures none { IfNone result ((to : ℕ) → IsString source.now from to → ⊥) }
{
    let mut taken = false;
    let mut at = from;
    while at < source.len() {
        let byte = source[at];
        if ends_string(byte, taken) {
            return Some(at + 1);
        }
        if byte == b'\n' {
            return None;
        }
        taken = takes_next(byte, taken);
        at += 1;
    }
    None
}

// Whether the byte, which a backslash takes or not, is the quote that ends a string.
fn ends_string(byte: u8, taken: bool) -> bool
    ensures { result ≡ (byte == 34 && not taken) }
{
    byte == b'"' && !taken
}

// Whether the byte is a backslash that takes the next one with it.
fn takes_next(byte: u8, taken: bool) -> bool
    ensures { result ≡ (byte == 92 && not taken) }
{
    byte == b'\\' && !taken
}

fn mark_end(source: &[u8], at: usize) -> Option<usize>
    requires { at < length source.now }
    ensures found { IfSome result (λ to. IsMark source.now at to) }
    ensures within { IfSome result (λ to. (at < to) × (to ≤ length source.now)) }
    ensures none { IfNone result ((to : ℕ) → IsMark source.now at to → ⊥) }
{
    if at + 2 <= source.len() && is_mark(&source[at..at + 2]) {
        Some(at + 2)
    } else if is_mark(&source[at..at + 1]) {
        Some(at + 1)
    } else {
        None
    }
}
