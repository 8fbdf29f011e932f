//! How wide ranges are, and where their bits stand.
ghost use Rattle.std.specs.Prelude.{◌≡◌};
ghost use Rattle.vlog_tree.specs.Meaning.Ranges.{place_of, span};

use bm_base::Range;

/// How many bits a range has.
pub fn span(range: Range) -> usize
    ensures { result ≡ span range }
{
    range.left.abs_diff(range.right) as usize + 1
}

/// The place of an index, from the right end, where the range has it.
pub fn place_of(range: Range, index: u32) -> Option<u32>
    ensures { result ≡ place_of range index }
{
    if range.right <= index && index <= range.left {
        Some(index - range.right)
    } else if range.left <= index && index <= range.right {
        Some(range.right - index)
    } else {
        None
    }
}
