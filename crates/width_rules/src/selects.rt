//! How wide ranges are, and which selects they have.
ghost use Rattle.std.specs.Prelude.{◌≡◌, is_some};
ghost use Rattle.width_rules.specs.Capped.{cap};
ghost use Rattle.vlog_tree.specs.Meaning.Ranges.{bit_with, part_bits, part_of, place_of, span};
ghost use Rattle.vlog_tree.specs.Meaning.Uses.{Text};

use crate::shape::TOO_WIDE;
use bm_base::{Name, Range};
use nets::{Nets, place_of};
use vlog_tree::Ranges;

/// How many bits a range has, but no more than right above the greatest width.
pub(crate) fn capped_span(range: Range) -> usize
    ensures { result ≡ cap (span range) }
{
    (range.left.abs_diff(range.right) as usize + 1).min(TOO_WIDE)
}

/// Whether the name's range has the bit with this index.
pub(crate) fn has_bit(nets: &Nets<'_>, name: &Name, index: u32) -> bool
    ensures { result ≡ is_some (bit_with nets.now name.now index) }
{
    match nets.range_of(name) {
        Some(range) => place_of(range, index).is_some(),
        None => false,
    }
}

/// Whether the name's range has the bits of the part, in its direction.
pub(crate) fn has_part(nets: &Nets<'_>, name: &Name, part: Range) -> bool
    ensures { result ≡ is_some (part_bits nets.now name.now part) }
{
    match nets.range_of(name) {
        Some(range) => range_has_part(range, part),
        None => false,
    }
}

fn range_has_part(range: Range, part: Range) -> bool
    ensures { (name : Text) → result ≡ is_some (part_of range name part) }
{
    match (place_of(range, part.left), place_of(range, part.right)) {
        (Some(high), Some(low)) => low <= high,
        _ => false,
    }
}
