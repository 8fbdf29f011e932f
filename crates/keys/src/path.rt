//! The path of an instance.
ghost use Rattle.std.specs.Prelude.{◌≡◌, ◌<◌, ◌≤◌, IfOk, Some, length, slice_get};
ghost use Rattle.design_laws.specs.Sound.{IsSound};
ghost use Rattle.frames.specs.Numbered.{setting_with};
ghost use Rattle.vlog_tree.specs.Meaning.Instances.{Instance, instances};
ghost use Rattle.keys.specs.Holding.{HoldsIn};

use bm_base::{Name, NoMemory};
use frames::Frames;
use sqlite_items::Items;
use std::alloc::Global;
use vlog_tree::Item;

/// The path of the instance at a place.
pub(crate) fn path_of(
    alloc: Global,
    frames: &Frames<'_>,
    place: usize,
) -> Result<Items<Name>, NoMemory>
    requires sound { IsSound (setting_with frames.now) }
    requires within { place < length (instances (setting_with frames.now)) }
    ensures { IfOk result (λ path. (instance : Instance)
        → slice_get (instances (setting_with frames.now)) place ≡ Some instance → path ≡ instance.path) }
{
    let mut path = Items::new(alloc);
    let mut at = 0;
    while at < place {
        at = enter(frames, at, place, &mut path)?;
    }
    Ok(path)
}

// Goes into the child that holds the instance at a place: puts its name behind the path, and gives its place.
fn enter(
    frames: &Frames<'_>,
    at: usize,
    place: usize,
    path: &mut Items<Name>,
) -> Result<usize, NoMemory>
    requires sound { IsSound (setting_with frames.now) }
    requires within { place < length (instances (setting_with frames.now)) }
    requires holds { HoldsIn frames.now at place path.old }
    requires inner { at < place }
    ensures holds { IfOk result (λ child. HoldsIn frames.now child place path.new) }
    ensures later { IfOk result (λ child. at < child) }
    ensures within { IfOk result (λ child. child ≤ place) }
{
    let mut child = at + 1;
    for item in frames.at(at).places().nets().module().items.as_slice() {
        if let Item::Instance { name, .. } = item {
            let next = frames.next_inner(child);
            if place < next {
                path.push(name.clone()?)?;
                return Ok(child);
            }
            child = next;
        }
    }
    unreachable!()
}
