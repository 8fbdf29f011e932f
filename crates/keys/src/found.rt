//! The bit of a number among the bits of a module.
ghost use Rattle.std.specs.Prelude.{◌≡◌, ◌<◌, ◌^◌, cond, slice_get};
ghost use Rattle.std.specs.Option.{option_map};
ghost use Rattle.vlog_tree.specs.Meaning.Lefts.{bit_of};
ghost use Rattle.vlog_tree.specs.Meaning.Ranges.{span};
ghost use Rattle.keys.specs.Kinds.{bits_by, is_of};

use crate::kind::Kind;
use nets::{Net, Nets};

/// The name and the place of the bit that has a number among those of a kind. Nothing where there are not so many.
pub(crate) fn bit_at<'a>(
    kind: Kind,
    is_top: bool,
    clock: &[u8],
    nets: &Nets<'a>,
    number: usize,
) -> Option<(&'a [u8], u32)>
    requires { number < 2 ^ 32 }
    ensures { option_map (λ found. bit_of found.0.now found.1) result
        ≡ slice_get (bits_by kind is_top clock.now nets.now) number }
{
    let mut left = number;
    for i in 0..nets.len() {
        let (name, net) = nets.entry_at(i);
        let width = width_of(kind.is_of(is_top, clock, nets, name), net);
        if left < width {
            return Some((name, left as u32));
        }
        left -= width;
    }
    None
}

// How many bits the name has, where these are of the kind.
fn width_of(is_of: bool, net: &Net) -> usize
    ensures { result ≡ cond is_of (span net.now.range) 0 }
{
    if is_of { net.width() } else { 0 }
}
