//! The instance that has the bit of a number.
ghost use Rattle.std.specs.Prelude.{◌≡◌, ◌<◌, ◌≤◌, ◌+◌, length};
ghost use Rattle.frames.specs.Numbered.{setting_with};
ghost use Rattle.vlog_tree.specs.Meaning.Instances.{instances};
ghost use Rattle.keys.specs.Kinds.{before};

use crate::kind::Kind;
use frames::Frames;

/// The place of the instance that has the bit of a number among all of the kind.
pub(crate) fn holder(kind: Kind, frames: &Frames<'_>, number: usize) -> usize
    requires { let list = instances (setting_with frames.now) in number < before kind list (length list) }
    ensures within { result < length (instances (setting_with frames.now)) }
    ensures first { before kind (instances (setting_with frames.now)) result ≤ number }
    ensures last { number < before kind (instances (setting_with frames.now)) (result + 1) }
{
    let mut low = 0;
    let mut high = frames.len();
    while low + 1 < high {
        let middle = low + (high - low) / 2;
        if kind.before(frames, middle) <= number {
            low = middle;
        } else {
            high = middle;
        }
    }
    low
}
