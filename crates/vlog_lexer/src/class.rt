//! Sets of bytes, of which tokens and comments have runs.
ghost use Rattle.std.specs.Prelude.{◌≡◌, ◌≤◌, length};
ghost use Rattle.vlog_tokens.specs.Classes.{is_in, is_unknown_digit};
ghost use Rattle.vlog_tokens.specs.Runs.{IsRun};

use vlog_tokens::Class;
use vlog_words::{is_space, is_word_byte};

/// Where the longest run of bytes of the class ends that begins at the place.
pub fn run_end(class: Class, source: &[u8], from: usize) -> usize
    requires { from ≤ length source.now }
    ensures { IsRun class source.now from result }
{
    let mut to = from;
    while to < source.len() && is_in(class, source[to]) {
        to += 1;
    }
    to
}

fn is_in(class: Class, byte: u8) -> bool
    ensures { result ≡ is_in class byte }
{
    match class {
        Class::SpaceByte => is_space(byte),
        Class::WordByte => is_word_byte(byte),
        Class::LineByte => byte != b'\n',
        Class::NameByte => byte.is_ascii_graphic(),
        Class::DecimalByte => byte.is_ascii_digit() || byte == b'_',
        Class::BinaryDigit => byte == b'0' || byte == b'1' || is_unknown_digit(byte),
        Class::OctalDigit => matches!(byte, b'0'..=b'7') || is_unknown_digit(byte),
        Class::DecimalDigit => byte.is_ascii_digit() || is_unknown_digit(byte),
        Class::HexDigit => byte.is_ascii_hexdigit() || is_unknown_digit(byte),
    }
}

fn is_unknown_digit(byte: u8) -> bool
    ensures { result ≡ is_unknown_digit byte }
{
    byte == b'x' || byte == b'X' || byte == b'z' || byte == b'Z' || byte == b'?' || byte == b'_'
}
