//! All items of an instance.
ghost use Rattle.std.specs.Prelude.{◌≡◌, ◌<◌, ℕ, IfErr, IfOk, OnOk, Some, length, map, slice_get};
ghost use Rattle.design_laws.specs.Sound.{IsSound};
ghost use Rattle.flat_items.specs.Carried.{Carried, CarriesTo};
ghost use Rattle.flat_items.specs.Framing.{IsFrame};
ghost use Rattle.flat_items.specs.Whole.{InstanceGives, InstanceGivesTo};
ghost use Rattle.flat_design.specs.Instances.{own_edges};
ghost use Rattle.flat_design.specs.Items.{each, item_given};
ghost use Rattle.flat_net.specs.declared.fault.FlatFault.TheVariants.{Memory};
ghost use Rattle.frames.specs.Numbered.{setting_with};
ghost use Rattle.numbering.specs.Bits.{register_bits};
ghost use Rattle.vlog_tree.specs.Meaning.Instances.{Instance, instances};
ghost use Rattle.vlog_tree.specs.Meaning.Setting.{Setting};

use crate::item::lower_item;
use drives::Driven;
use flat_net::{Edge, FlatFault};
use frames::{Frame, Frames};
use lowering::Nodes;
use sqlite_items::Items;
use std::alloc::Global;

/// Carries out the items of the instance at a place: adds their nodes, gives edges to the bits that they drive, and adds
/// the next edges of the registers of the instance. Takes time in step with the items, the edges of their expressions,
/// and the nodes that are added.
pub fn lower_instance(
    alloc: Global,
    frames: &Frames<'_>,
    place: usize,
    nodes: &mut Nodes,
    driven: &mut Driven,
    registers: &mut Items<Edge>,
) -> Result<(), FlatFault>
    requires sound { IsSound (setting_with frames.now) }
    requires inside { place < length (instances (setting_with frames.now)) }
    ensures given { OnOk result (InstanceGives (setting_with frames.now) place nodes.old nodes.new driven.old driven.new
        registers.old registers.new) }
    ensures fault { IfErr result (InstanceGivesTo (setting_with frames.now) place nodes.old) }
{
    let mut current = own_registers(alloc, &frames.at(place))?;
    lower_items(alloc, frames, place, nodes, driven, &mut current)?;
    registers.append(current)?;
    Ok(())
}

// At first each register has its own edge.
fn own_registers(alloc: Global, frame: &Frame<'_>) -> Result<Items<Edge>, FlatFault>
    ensures edges { IfOk result (λ edges. (setting : Setting) (place : ℕ) (instance : Instance)
        → IsFrame setting place instance frame.now
        → edges ≡ map (own_edges setting instance) (register_bits instance.definition)) }
    ensures fault { IfErr result (λ fault. fault ≡ Memory) }
{
    let first = frame.first_register();
    let mut edges = Items::new(alloc);
    for place in 0..frame.places().registers() {
        edges.push(Edge::plain(first + place as u32))?;
    }
    Ok(edges)
}

// Carries out the items, in their order.
fn lower_items(
    alloc: Global,
    frames: &Frames<'_>,
    place: usize,
    nodes: &mut Nodes,
    driven: &mut Driven,
    current: &mut Items<Edge>,
) -> Result<(), FlatFault>
    requires sound { IsSound (setting_with frames.now) }
    requires inside { place < length (instances (setting_with frames.now)) }
    ensures given { OnOk result ((instance : Instance) → slice_get (instances (setting_with frames.now)) place ≡ Some instance
        → Carried (setting_with frames.now) instance.definition
        (each (item_given (setting_with frames.now) instance) instance.definition.items)
        nodes.old nodes.new driven.old driven.new current.old current.new) }
    ensures fault { IfErr result (λ fault. (instance : Instance)
        → slice_get (instances (setting_with frames.now)) place ≡ Some instance
        → CarriesTo instance.definition (each (item_given (setting_with frames.now) instance) instance.definition.items)
        nodes.old current.old fault) }
{
    // A place below it has a next one.
    let _count = frames.len();
    let items = frames.at(place).places().nets().module().items.as_slice();
    let mut inner = place + 1;
    for item in items {
        inner = lower_item(alloc, frames, place, inner, nodes, driven, current, item)?;
    }
    Ok(())
}
