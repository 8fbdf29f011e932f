//! The flat netlist of instances whose bits are numbered.
ghost use Rattle.std.specs.Prelude.{◌≡◌, ◌≤◌, ◌++◌, IfErr, IfOk, None, OnOk, length, map};
ghost use Rattle.bm_base.specs.Size.{limit_of};
ghost use Rattle.bm_base.specs.declared.size.Size.TheVariants.{Nodes as nodes_size};
ghost use Rattle.flat_design.specs.Flat.{flat};
ghost use Rattle.flat_design.specs.Sizes.{first_too_large, too_large};
ghost use Rattle.flat_net.specs.Nets.{sources};
ghost use Rattle.frames.specs.Numbered.{setting_with};
ghost use Rattle.numbering.specs.Numbering.{edge_of};
ghost use Rattle.vlog_tree.specs.Meaning.Keys.{input_keys, register_keys};
ghost use Rattle.vlog_tree.specs.Meaning.Step.{check_key};
ghost use Rattle.flatten.specs.Gathered.{IsWhole, node_given};
ghost use Rattle.flatten.specs.Planned.{Refuses};
ghost use Rattle.flatten.specs.Ready.{IsReadyBy, setting_by};
ghost use Rattle.flatten.specs.Tested.{last_sizes};

use crate::first_state::power_up_of;
use crate::limits::within_limits;
use crate::sources::{add_driven, sources_of};
use crate::whole::{Whole, whole_of};
use bm_base::NoMemory;
use flat_net::{Edge, FlatFault, FlatNet, Node};
use frames::Frames;
use lowering::Nodes;
use sqlite_items::Items;
use std::alloc::Global;

/// The flat netlist of these instances, with the checker of this name.
pub(crate) fn flat_of(
    alloc: Global,
    frames: &Frames<'_>,
    check: &[u8],
) -> Result<FlatNet, FlatFault>
    requires { IsReadyBy frames.now check.now }
    ensures flat { IfOk result (λ net. net ≡ flat (setting_by frames.now check.now)) }
    ensures within { OnOk result (too_large (setting_by frames.now check.now) ≡ None) }
    ensures refused { IfErr result (Refuses (setting_by frames.now check.now)) }
{
    let whole = whole_of(alloc, frames)?;
    within_limits(frames.registers(), frames.inputs())?;
    Ok(net_of(alloc, frames, whole, check)?)
}

// The net of its parts.
fn net_of(
    alloc: Global,
    frames: &Frames<'_>,
    whole: Whole,
    check: &[u8],
) -> Result<FlatNet, NoMemory>
    requires ready { IsReadyBy frames.now check.now }
    requires whole { IsWhole (setting_with frames.now) whole.nodes whole.driven whole.next }
    requires few { length (flat (setting_with frames.now)).nodes ≤ limit_of nodes_size }
    requires small { first_too_large (last_sizes (length (register_keys (setting_with frames.now)))
        (length (input_keys (setting_with frames.now)))) ≡ None }
    ensures { IfOk result (λ net. net ≡ flat (setting_by frames.now check.now)) }
{
    let Whole {
        nodes,
        driven,
        next,
    } = whole;
    let inputs = frames.inputs();
    let bad = edge_of_check(frames, check);
    let power_up = power_up_of(alloc, frames)?;
    let nodes = nodes_of(alloc, inputs, frames.registers(), driven.edges(), nodes)?;
    Ok(FlatNet::new(nodes, next, bad, inputs as u32, power_up))
}

// The edge of the checker, which is a name of the top.
fn edge_of_check(frames: &Frames<'_>, check: &[u8]) -> Edge
    requires { IsReadyBy frames.now check.now }
    ensures { result ≡ edge_of (setting_with frames.now) (check_key (setting_by frames.now check.now)) }
{
    let frame = frames.at(0);
    frame.wire_of(check).edge(0)
}

// All nodes: the sources, those of driven bits, and those of expressions.
fn nodes_of(
    alloc: Global,
    inputs: usize,
    registers: usize,
    edges: &[Option<Edge>],
    nodes: Nodes,
) -> Result<Items<Node>, NoMemory>
    requires inputs_fit { inputs ≤ 4294967296 }
    requires registers_fit { registers ≤ 4294967296 }
    ensures { IfOk result (λ all. all ≡ sources inputs registers ++ (map node_given edges.now ++ nodes.nodes)) }
{
    let mut all = sources_of(alloc, inputs, registers)?;
    add_driven(&mut all, edges)?;
    all.append(nodes.into_items())?;
    Ok(all)
}
