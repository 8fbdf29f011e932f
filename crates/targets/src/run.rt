//! Neighbouring bits of a name.
ghost use Rattle.std.specs.Prelude.{◌≡◌, ◌+◌, ◌≤◌, IfSome, Some};
ghost use Rattle.std.specs.Option.{option_map};
ghost use Rattle.targets.specs.Numbers.{bits_of_run};
ghost use Rattle.vlog_tree.specs.Meaning.Keys.{bit_count};
ghost use Rattle.vlog_tree.specs.Meaning.Ranges.{bit_with, part_bits, range_of, whole_bits};

use bm_base::{Name, Range};
use nets::{Nets, place_of};
use vlog_tree::Ranges;

/// Neighbouring bits of a name, counted from the right end of its range.
#[derive(Clone, Copy, Debug, PartialEq, Eq)]
pub(crate) struct Run {
    pub(crate) low: usize,
    pub(crate) width: usize,
}

/// All bits of a name.
pub(crate) fn whole(nets: &Nets<'_>, name: &Name) -> Option<Run>
    ensures bits { option_map (bits_of_run name.now) result ≡ whole_bits nets.now name.now }
    ensures within { IfSome result (λ run. run.low + run.width ≤ bit_count nets.now name.now) }
{
    match nets.get(name) {
        Some(net) => Some(Run {
            low: 0,
            width: net.width(),
        }),
        None => None,
    }
}

/// The bit with an index, if the name has it.
pub(crate) fn bit(nets: &Nets<'_>, name: &Name, index: u32) -> Option<Run>
    ensures bits { option_map (bits_of_run name.now) result ≡ bit_with nets.now name.now index }
    ensures within { IfSome result (λ run. run.low + run.width ≤ bit_count nets.now name.now) }
{
    match nets.range_of(name) {
        Some(range) => bit_in(nets, name, range, index),
        None => None,
    }
}

#[tactic(auto, using(crate::proofs::RunLemmas::place_within))]
fn bit_in(nets: &Nets<'_>, name: &Name, range: Range, index: u32) -> Option<Run>
    requires { range_of nets.now name.now ≡ Some range }
    ensures bits { option_map (bits_of_run name.now) result ≡ bit_with nets.now name.now index }
    ensures within { IfSome result (λ run. run.low + run.width ≤ bit_count nets.now name.now) }
{
    match place_of(range, index) {
        Some(place) => Some(Run {
            low: place as usize,
            width: 1,
        }),
        None => None,
    }
}

/// The bits of a part, if the name has it and its range runs the same way.
pub(crate) fn part(nets: &Nets<'_>, name: &Name, part: Range) -> Option<Run>
    ensures bits { option_map (bits_of_run name.now) result ≡ part_bits nets.now name.now part }
    ensures within { IfSome result (λ run. run.low + run.width ≤ bit_count nets.now name.now) }
{
    match nets.range_of(name) {
        Some(range) => part_in(nets, name, range, part),
        None => None,
    }
}

#[tactic(auto, using(crate::proofs::RunLemmas::place_within))]
fn part_in(nets: &Nets<'_>, name: &Name, range: Range, part: Range) -> Option<Run>
    requires { range_of nets.now name.now ≡ Some range }
    ensures bits { option_map (bits_of_run name.now) result ≡ part_bits nets.now name.now part }
    ensures within { IfSome result (λ run. run.low + run.width ≤ bit_count nets.now name.now) }
{
    match (place_of(range, part.left), place_of(range, part.right)) {
        (Some(high), Some(low)) => {
            if low <= high {
                Some(Run {
                    low: low as usize,
                    width: (high - low) as usize + 1,
                })
            } else {
                None
            }
        }
        _ => None,
    }
}
