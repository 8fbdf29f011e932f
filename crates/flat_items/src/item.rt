//! One item of an instance.
ghost use Rattle.std.specs.Prelude.{◌≡◌, ◌<◌, IfErr, IfOk, OnOk, Some, length, slice_get};
ghost use Rattle.design_laws.specs.Sound.{IsSound};
ghost use Rattle.flat_design.specs.Items.{always_given, item_given};
ghost use Rattle.flat_items.specs.Carried.{Carried, CarriesTo};
ghost use Rattle.flat_items.specs.Inner.{IsNextInner, StandsAt};
ghost use Rattle.frames.specs.Numbered.{setting_with};
ghost use Rattle.vlog_tree.specs.Meaning.Instances.{Instance, instances};

use crate::assign::lower_assign;
use crate::gate::lower_gate;
use crate::links::lower_links;
use drives::Driven;
use flat_net::{Edge, FlatFault};
use frames::Frames;
use lowering::Nodes;
use processes::lower_statement;
use sqlite_items::Items;
use std::alloc::Global;
use vlog_tree::{Item, Link};

/// Carries out an item of the instance at `place`. The first instance that stands in this item or in those behind it is
/// the one at `inner`. Gives the place of the first one behind this item.
pub(crate) fn lower_item(
    alloc: Global,
    frames: &Frames<'_>,
    place: usize,
    inner: usize,
    nodes: &mut Nodes,
    driven: &mut Driven,
    current: &mut Items<Edge>,
    item: &Item,
) -> Result<usize, FlatFault>
    requires sound { IsSound (setting_with frames.now) }
    requires inside { place < length (instances (setting_with frames.now)) }
    requires stands { StandsAt (setting_with frames.now) place inner item.now }
    ensures given { OnOk result ((instance : Instance) → slice_get (instances (setting_with frames.now)) place ≡ Some instance
        → Carried (setting_with frames.now) instance.definition (item_given (setting_with frames.now) instance item.now)
        nodes.old nodes.new driven.old driven.new current.old current.new) }
    ensures next { IfOk result (IsNextInner (setting_with frames.now) inner item.now) }
    ensures fault { IfErr result (λ fault. (instance : Instance)
        → slice_get (instances (setting_with frames.now)) place ≡ Some instance
        → CarriesTo instance.definition (item_given (setting_with frames.now) instance item.now)
        nodes.old current.old fault) }
{
    let frame = frames.at(place);
    match item {
        Item::Assign { left, right, .. } => {
            lower_assign(alloc, &frame, nodes, driven, left, right)?;
            Ok(inner)
        }
        Item::Gate {
            kind,
            outs,
            ins,
            ..
        } => {
            lower_gate(
                alloc,
                &frame,
                nodes,
                driven,
                *kind,
                outs.as_slice(),
                ins.as_slice(),
            )?;
            Ok(inner)
        }
        Item::Instance { links, .. } => {
            let child = frames.at(inner);
            lower_links(alloc, &frame, &child, nodes, driven, links.as_slice())?;
            Ok(frames.next_inner(inner))
        }
        Item::Always { body, .. } => {
            lower_statement(alloc, nodes, &frame, frame.places(), current, body)?;
            Ok(inner)
        }
        Item::Decl { .. } | Item::Initial { .. } => Ok(inner),
    }
}
