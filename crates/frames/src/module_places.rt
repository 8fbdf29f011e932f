//! The places of the names of each module.
ghost use Rattle.std.specs.Prelude.{◌≡◌, ◌<◌, ℕ, IfOk, Some, length, slice_get, true};
ghost use Rattle.std.specs.Option.{option_copied};
ghost use Rattle.hierarchy.specs.Reach.{reaches};
ghost use Rattle.numbering.specs.Places.{IsApart};
ghost use Rattle.vlog_tree.specs.declared.design.Module.{Module};
ghost use Rattle.frames.specs.Found.{HavePlaces, IsFound, clock_by};
ghost use Rattle.frames.specs.Numbered.{numbered};

use bm_base::NoMemory;
use design_nets::DesignNets;
use flat_net::FlatFault;
use numbering::ModulePlaces;
use sqlite_items::Items;
use std::alloc::Global;

/// The places of each module that is reached, unless its bits are too many.
pub(crate) fn places_of<'a>(
    alloc: Global,
    design: &'a DesignNets<'a>,
    clock: &'a [u8],
) -> Result<Items<Option<ModulePlaces<'a>>>, NoMemory>
    requires { let topped = design.now in (m : Module) (place : ℕ) → slice_get topped.design.modules place ≡ Some m
        → reaches topped.design topped.top m.name ≡ true → IsApart m }
    ensures { IfOk result (HavePlaces (numbered design.now clock.now) (length design.now.design.modules)) }
{
    let mut places = Items::new(alloc);
    for i in 0..design.modules().len() {
        places.push(module_places(alloc, design, clock, i)?)?;
    }
    Ok(places)
}

/// The places of the module that stands there. Nothing where it is not reached, or where its bits are too many.
pub(crate) fn module_places<'a>(
    alloc: Global,
    design: &'a DesignNets<'a>,
    clock: &'a [u8],
    place: usize,
) -> Result<Option<ModulePlaces<'a>>, NoMemory>
    requires within { place < length design.now.design.modules }
    requires apart { let topped = design.now in (m : Module) → slice_get topped.design.modules place ≡ Some m
        → reaches topped.design topped.top m.name ≡ true → IsApart m }
    ensures { IfOk result (λ found. (m : Module) → slice_get design.now.design.modules place ≡ Some m
        → IsFound (numbered design.now clock.now) m found) }
{
    if !design.is_reached(place) {
        return Ok(None);
    }
    let nets = &design.modules()[place];
    let clock = clock_of(design, clock, nets.module().name.bytes());
    match ModulePlaces::of(alloc, nets, clock) {
        Ok(places) => Ok(Some(places)),
        Err(FlatFault::TooLarge { .. }) => Ok(None),
        Err(FlatFault::Memory) => Err(NoMemory),
    }
}

fn clock_of<'a>(design: &DesignNets, clock: &'a [u8], name: &[u8]) -> Option<&'a [u8]>
    ensures { option_copied result ≡ clock_by (numbered design.now clock.now) name.now }
{
    if name == design.top().module().name.bytes() {
        Some(clock)
    } else {
        None
    }
}
