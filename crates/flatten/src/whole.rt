//! What the items of all instances give.
ghost use Rattle.std.specs.Prelude.{◌≤◌, IfErr, IfOk, OnOk, length};
ghost use Rattle.bm_base.specs.declared.size.Size.TheVariants.{Instances as instances_size, Nodes as nodes_size};
ghost use Rattle.bm_base.specs.Size.{limit_of};
ghost use Rattle.design_laws.specs.Sound.{IsSound};
ghost use Rattle.flat_design.specs.Flat.{flat};
ghost use Rattle.frames.specs.Numbered.{setting_with};
ghost use Rattle.lowering.specs.Limits.{Excuses};
ghost use Rattle.vlog_tree.specs.Meaning.Instances.{instances};
ghost use Rattle.flatten.specs.Gathered.{IsWhole};

use drives::Driven;
use flat_items::lower_instance;
use flat_net::{Edge, FlatFault};
use frames::Frames;
use lowering::Nodes;
use sqlite_items::Items;
use std::alloc::Global;

/// The nodes of all expressions, the first edge of each driven bit, and the next edge of each register.
#[derive(Drop)]
pub(crate) struct Whole {
    pub(crate) nodes: Nodes,
    pub(crate) driven: Driven,
    pub(crate) next: Items<Edge>,
}

/// Carries out the items of all instances.
pub(crate) fn whole_of(alloc: Global, frames: &Frames<'_>) -> Result<Whole, FlatFault>
    requires { IsSound (setting_with frames.now) }
    ensures whole { IfOk result (λ whole. IsWhole (setting_with frames.now) whole.nodes whole.driven whole.next) }
    ensures fault { IfErr result (Excuses (length (flat (setting_with frames.now)).nodes)) }
    ensures small { OnOk result (length (flat (setting_with frames.now)).nodes ≤ limit_of nodes_size) }
    ensures few { length (instances (setting_with frames.now)) ≤ limit_of instances_size }
{
    let count = frames.len();
    let mut nodes = Nodes::new(alloc, frames.first());
    let mut driven = Driven::new(alloc, frames.driven())?;
    let mut next = Items::new(alloc);
    for place in 0..count {
        lower_instance(alloc, frames, place, &mut nodes, &mut driven, &mut next)?;
    }
    // Its number is within the limit on nodes, and so is the count of all nodes.
    let _behind = nodes.next();
    Ok(Whole {
        nodes,
        driven,
        next,
    })
}
