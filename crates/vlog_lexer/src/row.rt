//! What a place of a source begins, told by its first two bytes.
ghost use Rattle.std.specs.Prelude.{◌≡◌, ◌<◌, length, slice_index};
ghost use Rattle.vlog_tokens.specs.Rows.{kind_of, row_at, row_of};

use vlog_tokens::{Row, TokenKind};
use vlog_words::{is_space, is_word_start};

/// What the place begins.
pub fn row_at(source: &[u8], at: usize) -> Row
    requires { at < length source.now }
    ensures { result ≡ row_at source.now at }
{
    row_of(source[at], byte_at(source, at + 1))
}

/// The byte at the place, 0 past the end.
pub fn byte_at(source: &[u8], at: usize) -> u8
    ensures { result ≡ slice_index source.now at }
{
    if at < source.len() { source[at] } else { 0 }
}

fn row_of(byte: u8, next: u8) -> Row
    ensures { result ≡ row_of byte next }
{
    if is_space(byte) {
        Row::Space
    } else if byte == b'/' && next == b'/' {
        Row::LineComment
    } else if byte == b'/' && next == b'*' {
        Row::BlockComment
    } else if byte == b'`' {
        Row::Directive
    } else {
        Row::Token(kind_of(byte))
    }
}

fn kind_of(byte: u8) -> TokenKind
    ensures { result ≡ kind_of byte }
{
    if is_word_start(byte) {
        TokenKind::Word
    } else if byte == b'\\' {
        TokenKind::Escaped
    } else if byte == b'$' {
        TokenKind::System
    } else if byte.is_ascii_digit() {
        TokenKind::Decimal
    } else if byte == b'\'' {
        TokenKind::Based
    } else if byte == b'"' {
        TokenKind::Text
    } else {
        TokenKind::Mark
    }
}
