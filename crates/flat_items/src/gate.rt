//! Gates.
ghost use Rattle.std.specs.Prelude.{◌≡◌, ◌∷◌, [], IfErr, IfOk, OnOk, flat_map, map};
ghost use Rattle.flat_design.specs.Items.{gate_given};
ghost use Rattle.flat_items.specs.Carried.{Gives, GivesTo};
ghost use Rattle.flat_items.specs.Framing.{number_by};
ghost use Rattle.flat_items.specs.Parts.{inputs_of};
ghost use Rattle.flat_items.specs.declared.side.Side.TheVariants.{Inside};
ghost use Rattle.flat_net.specs.declared.fault.FlatFault.TheVariants.{Memory};
ghost use Rattle.flat_net.specs.Edges.{negated};
ghost use Rattle.frames.specs.Framed.{wires_of};
ghost use Rattle.drives.specs.Given.{given_all};
ghost use Rattle.lowering.specs.Gates.{gate};
ghost use Rattle.lowering.specs.Expressions.{only};
ghost use Rattle.lowering.specs.Limits.{Excuses, next_of, with_more};
ghost use Rattle.lowering.specs.Lowered.{after};
ghost use Rattle.vlog_tree.specs.Meaning.Lefts.{left_bits};

use crate::side::{Side, Sided};
use drives::Driven;
use flat_net::{Edge, FlatFault};
use frames::Frame;
use lowering::{Nodes, all_bits, any_bit, lower, parity};
use sqlite_items::Items;
use std::alloc::Global;
use targets::left_numbers;
use vlog_tree::{Expr, GateKind, Left};

/// The bits of the outputs are given the edge of the gate.
pub(crate) fn lower_gate(
    alloc: Global,
    frame: &Frame<'_>,
    nodes: &mut Nodes,
    driven: &mut Driven,
    kind: GateKind,
    outs: &[Left],
    ins: &[Expr],
) -> Result<(), FlatFault>
    ensures given { OnOk result (Gives frame.now (λ setting instance. gate_given setting instance kind outs.now ins.now)
        nodes.old nodes.new driven.old driven.new) }
    ensures fault { IfErr result (GivesTo frame.now (λ setting instance. gate_given setting instance kind outs.now ins.now)
        nodes.old) }
{
    let inputs = lower_inputs(alloc, frame, nodes, ins)?;
    let edge = gate_edge(nodes, kind, inputs.as_slice())?;
    give_outs(alloc, frame, driven, outs, edge)?;
    Ok(())
}

// The edges of the inputs, each of which has one bit.
fn lower_inputs(
    alloc: Global,
    frame: &Frame<'_>,
    nodes: &mut Nodes,
    ins: &[Expr],
) -> Result<Items<Edge>, FlatFault>
    ensures nodes { OnOk result (nodes.new ≡ with_more nodes.old
        (inputs_of frame.now.placing.definition (wires_of frame.now) ins.now (next_of nodes.old))) }
    ensures edges { IfOk result (λ edges. edges
        ≡ (inputs_of frame.now.placing.definition (wires_of frame.now) ins.now (next_of nodes.old)).edges) }
    ensures fault { IfErr result (Excuses (after (next_of nodes.old)
        (inputs_of frame.now.placing.definition (wires_of frame.now) ins.now (next_of nodes.old)))) }
{
    let mut edges = Items::new(alloc);
    for input in ins {
        let bits = lower(alloc, nodes, frame, input, 1)?;
        edges.push(only(bits.as_slice()))?;
    }
    Ok(edges)
}

fn only(edges: &[Edge]) -> Edge
    ensures { result ≡ only edges.now }
{
    match edges {
        [] => Edge::constant(false),
        [edge, ..] => *edge,
    }
}

// The edge of a gate, by those of its inputs. The gates of one input have no node.
fn gate_edge(nodes: &mut Nodes, kind: GateKind, inputs: &[Edge]) -> Result<Edge, FlatFault>
    ensures nodes { OnOk result (nodes.new ≡ with_more nodes.old (gate kind inputs.now (next_of nodes.old))) }
    ensures edge { IfOk result (λ edge. edge ≡ only (gate kind inputs.now (next_of nodes.old)).edges) }
    ensures fault { IfErr result (Excuses (after (next_of nodes.old) (gate kind inputs.now (next_of nodes.old)))) }
{
    match kind {
        GateKind::And => Ok(all_bits(nodes, inputs)?),
        GateKind::Nand => {
            let all = all_bits(nodes, inputs)?;
            Ok(all.negated())
        }
        GateKind::Or => Ok(any_bit(nodes, inputs)?),
        GateKind::Nor => {
            let any = any_bit(nodes, inputs)?;
            Ok(any.negated())
        }
        GateKind::Xor => Ok(parity(nodes, inputs)?),
        GateKind::Xnor => {
            let odd = parity(nodes, inputs)?;
            Ok(odd.negated())
        }
        GateKind::Buf => Ok(only(inputs)),
        GateKind::Not => Ok(only_negated(inputs)),
    }
}

fn only_negated(inputs: &[Edge]) -> Edge
    ensures { result ≡ only (map negated inputs.now) }
{
    match inputs {
        [] => Edge::constant(false),
        [input, ..] => input.negated(),
    }
}

// All bits of the outputs are given one edge.
fn give_outs(
    alloc: Global,
    frame: &Frame<'_>,
    driven: &mut Driven,
    outs: &[Left],
    edge: Edge,
) -> Result<(), FlatFault>
    ensures given { OnOk result (driven.new ≡ given_all driven.old (map (λ number. (number, edge))
        (map (number_by Inside frame.now) (flat_map (left_bits frame.now.placing.definition) outs.now)))) }
    ensures fault { IfErr result (λ fault. fault ≡ Memory) }
{
    for out in outs {
        give_out(alloc, frame, driven, out, edge)?;
    }
    Ok(())
}

fn give_out(
    alloc: Global,
    frame: &Frame<'_>,
    driven: &mut Driven,
    out: &Left,
    edge: Edge,
) -> Result<(), FlatFault>
    ensures given { OnOk result (driven.new ≡ given_all driven.old (map (λ number. (number, edge))
        (map (number_by Inside frame.now) (left_bits frame.now.placing.definition out.now)))) }
    ensures fault { IfErr result (λ fault. fault ≡ Memory) }
{
    let inside = Sided {
        side: Side::Inside,
        frame,
    };
    let numbers = left_numbers(alloc, &inside, out)?;
    driven.give_same(numbers.as_slice(), edge);
    Ok(())
}
