ghost use Rattle.std.specs.Prelude.{◌≡◌, ◌==◌, ◌+◌, ◌&&◌, List, None, Some, if◌then◌else◌, map};
ghost use Rattle.std.specs.Option.{option_map};
ghost use Rattle.vcd_header.specs.Bits.{source_shown, wanted_of};
ghost use Rattle.vcd_header.specs.Declares.{declares};
ghost use Rattle.vcd_header.specs.Scopes.{Path};
ghost use Rattle.vcd_header.specs.Matching.{digit_by, distance, holds, source_by, source_of};

use crate::declaration::Declaration;
use crate::select::Select;
use crate::wanted::WantedBit;
use bm_base::Range;

/// Where a bit comes from.
#[derive(Clone, Copy)]
pub struct BitSource<'a> {
    /// The code of a variable.
    pub code: &'a [u8],
    /// Which of the variable's digits the bit is, from the right end, from 0.
    pub digit: u64,
}

/// Where the bit comes from, if one of the variables gives it.
pub(crate) fn source_among<'a>(
    declarations: &[Declaration<'a>],
    bit: &WantedBit,
) -> Option<BitSource<'a>>
    ensures { (paths : List Path) → option_map source_shown result
        ≡ source_of (map (declares paths) declarations.now) (wanted_of bit.now) }
{
    for declaration in declarations {
        if let Some(source) = source_by(declaration, bit) {
            return Some(source);
        }
    }
    None
}

// The bit, where the variable has the signal's name and gives it.
fn source_by<'a>(declaration: &Declaration<'a>, bit: &WantedBit) -> Option<BitSource<'a>>
    ensures { (paths : List Path) → option_map source_shown result
        ≡ source_by (declares paths declaration.now) (wanted_of bit.now) }
{
    if declaration.name != bit.name {
        return None;
    }
    match digit_by(declaration.select, declaration.size, bit) {
        Some(digit) => Some(BitSource {
            code: declaration.code,
            digit,
        }),
        None => None,
    }
}

// Which digit of a variable is the bit.
fn digit_by(select: Select, size: u32, bit: &WantedBit) -> Option<u64>
    ensures { result ≡ digit_by select size (wanted_of bit.now) }
{
    match select {
        Select::Whole => {
            if size == bit.width {
                Some(u64::from(bit.position))
            } else {
                None
            }
        }
        Select::Part(range) => digit_of_part(range, size, bit.index),
        Select::Other => None,
    }
}

fn digit_of_part(range: Range, size: u32, index: u64) -> Option<u64>
    ensures { result ≡ (if holds range index && distance range.left range.right + 1 == size
        then Some (distance index range.right) else None) }
{
    let left = u64::from(range.left);
    let right = u64::from(range.right);
    let least = left.min(right);
    let most = left.max(right);
    if least <= index && index <= most && most - least + 1 == u64::from(size) {
        Some(index.max(right) - index.min(right))
    } else {
        None
    }
}
