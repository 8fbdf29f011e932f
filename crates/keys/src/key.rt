//! The bit for which a node stands.
ghost use Rattle.std.specs.Prelude.{◌≡◌, ◌<◌, ◌^◌, IfOk, Some, length, slice_get};
ghost use Rattle.std.specs.Option.{option_map};
ghost use Rattle.design_laws.specs.Sound.{IsSound};
ghost use Rattle.frames.specs.Numbered.{setting_with};
ghost use Rattle.numbering.specs.Numbering.{key_at, key_in, keys_with_nodes};
ghost use Rattle.vlog_tree.specs.Meaning.Instances.{Instance, instances};
ghost use Rattle.keys.specs.Kinds.{before, bits_in, keys_by};

use crate::found::bit_at;
use crate::holder::holder;
use crate::kind::Kind;
use crate::path::path_of;
use bm_base::{Name, NoMemory};
use frames::Frames;
use std::alloc::Global;
use vlog_tree::Key;

/// The bit for which a node of the flat netlist stands: the path of its instance, its name, and its position from the
/// right end. None where it stands for none. Takes time in step with the length of the design.
pub fn key_at(alloc: Global, frames: &Frames<'_>, node: u32) -> Result<Option<Key>, NoMemory>
    requires { IsSound (setting_with frames.now) }
    ensures { IfOk result (λ key. key ≡ key_at (setting_with frames.now) node) }
{
    if node == 0 {
        return Ok(None);
    }
    key_of(alloc, frames, (node - 1) as usize)
}

// The bit of a number among all that have nodes.
fn key_of(alloc: Global, frames: &Frames<'_>, number: usize) -> Result<Option<Key>, NoMemory>
    requires sound { IsSound (setting_with frames.now) }
    requires small { number < 2 ^ 32 }
    ensures { IfOk result (λ key. key ≡ slice_get (keys_with_nodes (setting_with frames.now)) number) }
{
    let inputs = frames.inputs();
    if number < inputs {
        return key_in(alloc, Kind::Input, frames, 0, number);
    }
    let register = number - inputs;
    let registers = frames.registers();
    if register < registers {
        return key_among(alloc, Kind::Register, frames, register);
    }
    let driven = register - registers;
    if driven < frames.driven() {
        return key_among(alloc, Kind::Driven, frames, driven);
    }
    Ok(None)
}

// The bit of a number among all of a kind.
fn key_among(
    alloc: Global,
    kind: Kind,
    frames: &Frames<'_>,
    number: usize,
) -> Result<Option<Key>, NoMemory>
    requires sound { IsSound (setting_with frames.now) }
    requires small { number < 2 ^ 32 }
    requires within { let list = instances (setting_with frames.now) in number < before kind list (length list) }
    ensures { IfOk result (λ key. key ≡ slice_get (keys_by kind (setting_with frames.now)) number) }
{
    let place = holder(kind, frames, number);
    key_in(
        alloc,
        kind,
        frames,
        place,
        number - kind.before(frames, place),
    )
}

// The bit of a number among those of a kind in the instance at a place.
fn key_in(
    alloc: Global,
    kind: Kind,
    frames: &Frames<'_>,
    place: usize,
    number: usize,
) -> Result<Option<Key>, NoMemory>
    requires sound { IsSound (setting_with frames.now) }
    requires small { number < 2 ^ 32 }
    requires within { place < length (instances (setting_with frames.now)) }
    ensures { IfOk result (λ key. (instance : Instance)
        → slice_get (instances (setting_with frames.now)) place ≡ Some instance
        → key ≡ option_map (key_in instance.path) (slice_get (bits_in frames.now.clock kind instance) number)) }
{
    let frame = frames.at(place);
    match bit_at(
        kind,
        place == 0,
        frames.clock(),
        frame.places().nets(),
        number,
    ) {
        Some((name, bit)) => Ok(Some(Key {
            path: path_of(alloc, frames, place)?,
            name: Name::new(alloc, name)?,
            bit,
        })),
        None => Ok(None),
    }
}
