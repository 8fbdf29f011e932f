ghost use Rattle.std.specs.Prelude.{◌≡◌, ◌≤◌, drop, length};
ghost use Rattle.std.specs.List.{position_or_len};
ghost use Rattle.vcd_header.specs.Variables.{indices, is_colon, named_alone, parted, range_of, select_at, select_by, select_of};
ghost use Rattle.vcd_header.specs.Decimals.{small_number};
ghost use Rattle.vcd_header.specs.Scopes.{without_backslash};

use crate::decimal::number_up_to;
use bm_base::Range;

/// What a declaration says of a variable's bits.
#[derive(Clone, Copy, Debug, PartialEq, Eq)]
pub enum Select {
    /// Nothing: they are those of the whole name.
    Whole,
    /// A select, `[i]` or `[m:l]`: they have these indices, the left one at the left end.
    Part(Range),
    /// Something else, by which no bit is given.
    Other,
}

/// What the joined further tokens of a declaration say.
pub(crate) fn select_by(further: &[u8]) -> Select
    ensures { result ≡ select_by (select_of further.now) }
{
    match select_of(further) {
        Some(range) => Select::Part(range),
        None => Select::Other,
    }
}

/// The name and the select of a token, where no further tokens say more.
pub(crate) fn named_alone(text: &[u8]) -> (&[u8], Select)
    ensures name { result.0.now ≡ (named_alone text.now).0 }
    ensures select { result.1 ≡ (named_alone text.now).1 }
{
    if text.is_empty() {
        return (text, Select::Whole);
    }
    if text[0] == b'\\' {
        return (&text[1..], Select::Whole);
    }
    parted(text, select_at(text))
}

// The same, where the name does not begin with a backslash and this many bytes stand before its last `[`.
fn parted(text: &[u8], at: usize) -> (&[u8], Select)
    requires place { at ≡ select_at text.now }
    requires within { at ≤ length text.now }
    ensures name { result.0.now ≡ (parted text.now (select_of (drop at text.now))).0 }
    ensures select { result.1 ≡ (parted text.now (select_of (drop at text.now))).1 }
{
    match select_of(&text[at..]) {
        Some(range) if at > 0 => (&text[..at], Select::Part(range)),
        _ => (text, Select::Whole),
    }
}

/// The text without the backslash that it begins with, if it does.
pub(crate) fn without_backslash(text: &[u8]) -> &[u8]
    ensures { result.now ≡ without_backslash text.now }
{
    if !text.is_empty() && text[0] == b'\\' {
        &text[1..]
    } else {
        text
    }
}

// How many bytes stand before the last `[`.
fn select_at(text: &[u8]) -> usize
    ensures at { result ≡ select_at text.now }
    ensures within { result ≤ length text.now }
{
    let mut end = text.len();
    while end > 0 && text[end - 1] != b'[' {
        end -= 1;
    }
    end.saturating_sub(1)
}

// The range of a select: `[`, indices and `]`.
fn select_of(text: &[u8]) -> Option<Range>
    ensures { result ≡ select_of text.now }
{
    if text.len() < 2 || text[0] != b'[' || text[text.len() - 1] != b']' {
        return None;
    }
    indices(&text[1..text.len() - 1])
}

// The range between brackets: `m:l`, or `i`, which is `i:i`.
fn indices(text: &[u8]) -> Option<Range>
    ensures { result ≡ indices text.now }
{
    let colon = colon_at(text);
    if colon < text.len() {
        range_of(
            small_number(&text[..colon]),
            small_number(&text[colon + 1..]),
        )
    } else {
        range_of(small_number(text), small_number(text))
    }
}

fn range_of(left: Option<u32>, right: Option<u32>) -> Option<Range>
    ensures { result ≡ range_of left right }
{
    match (left, right) {
        (Some(left), Some(right)) => Some(Range { left, right }),
        _ => None,
    }
}

// The first colon, or the text's length.
fn colon_at(text: &[u8]) -> usize
    ensures at { result ≡ position_or_len is_colon text.now }
    ensures within { result ≤ length text.now }
{
    let mut at = 0;
    while at < text.len() && text[at] != b':' {
        at += 1;
    }
    at
}

/// What a size or an index of a variable can be.
pub(crate) fn small_number(text: &[u8]) -> Option<u32>
    ensures { result ≡ small_number text.now }
{
    match number_up_to(2_147_483_647, text) {
        Some(number) => Some(number as u32),
        None => None,
    }
}
