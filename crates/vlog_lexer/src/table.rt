//! Whether a text stands in the tables of marks and of directives. A mark is told by those that begin with its first
//! byte.
ghost use Rattle.std.specs.Prelude.{◌≡◌, ◌↔◌, Contains, IsTrue, filter, map};
ghost use Rattle.vlog_tokens.specs.Tables.{directives, marks};
ghost use Rattle.vlog_words.specs.Words.{begins_with};

use vlog_words::is_among;

// The directives that make their line blank.
const DIRECTIVES: [&str; 5] = [
    "timescale",
    "celldefine",
    "endcelldefine",
    "resetall",
    "default_nettype",
];

/// Whether the text is a mark.
pub fn is_mark(text: &[u8]) -> bool
    ensures { IsTrue result ↔ Contains marks text.now }
{
    match text {
        [first, ..] => is_among(mark_row(*first), text),
        [] => false,
    }
}

// The marks that begin with this byte.
fn mark_row(first: u8) -> &'static [&'static str]
    ensures { map (λ word. word.now) result.now ≡ filter (begins_with first) marks }
{
    match first {
        b'(' => &["(*", "("],
        b'*' => &["*)", "*"],
        b'<' => &["<=", "<"],
        b'=' => &["==", "="],
        b'!' => &["!=", "!"],
        b'&' => &["&&", "&"],
        b'|' => &["||", "|"],
        b'~' => &["~&", "~|", "~^", "~"],
        b'^' => &["^~", "^"],
        b')' => &[")"],
        b'[' => &["["],
        b']' => &["]"],
        b'{' => &["{"],
        b'}' => &["}"],
        b',' => &[","],
        b';' => &[";"],
        b':' => &[":"],
        b'.' => &["."],
        b'#' => &["#"],
        b'@' => &["@"],
        b'?' => &["?"],
        b'>' => &[">"],
        b'+' => &["+"],
        b'-' => &["-"],
        b'/' => &["/"],
        b'%' => &["%"],
        _ => &[],
    }
}

/// Whether the text is the word of a directive.
pub fn is_directive(text: &[u8]) -> bool
    ensures { IsTrue result ↔ Contains directives text.now }
{
    is_among(&DIRECTIVES, text)
}
