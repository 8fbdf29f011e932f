//! What is connected to one port of an instance.
ghost use Rattle.std.specs.Prelude.{◌≡◌, IfErr, IfOk, OnOk};
ghost use Rattle.flat_design.specs.Items.{input_given, output_drives};
ghost use Rattle.flat_items.specs.Linked.{GivesBack, Links, LinksTo, back_given, connection, into_given};
ghost use Rattle.flat_items.specs.Parts.{name_edges};
ghost use Rattle.flat_net.specs.declared.fault.FlatFault.TheVariants.{Memory};
ghost use Rattle.frames.specs.Framed.{wires_of};
ghost use Rattle.lowering.specs.Lowered.{extended};
ghost use Rattle.vlog_tree.specs.Meaning.Keys.{bit_count};

use crate::side::{Side, Sided};
use bm_base::NoMemory;
use drives::Driven;
use flat_net::{Edge, FlatFault};
use frames::Frame;
use lowering::{Nodes, lower_assigned};
use nets::Nets;
use sqlite_items::Items;
use std::alloc::Global;
use targets::{name_numbers, target_numbers};
use vlog_tree::Expr;

/// The bits of an input port are given the edges of what is connected. Nothing where the port is none.
pub(crate) fn lower_into(
    alloc: Global,
    frame: &Frame<'_>,
    inner: &Frame<'_>,
    nodes: &mut Nodes,
    driven: &mut Driven,
    port: &[u8],
    expr: &Expr,
) -> Result<(), FlatFault>
    ensures given { OnOk result (Links frame.now inner.now (into_given (connection port.now expr.now))
        nodes.old nodes.new driven.old driven.new) }
    ensures fault { IfErr result (LinksTo frame.now inner.now (into_given (connection port.now expr.now)) nodes.old) }
{
    if inner.places().nets().is_input(port) {
        lower_input(alloc, frame, inner, nodes, driven, port, expr)
    } else {
        Ok(())
    }
}

fn lower_input(
    alloc: Global,
    frame: &Frame<'_>,
    inner: &Frame<'_>,
    nodes: &mut Nodes,
    driven: &mut Driven,
    port: &[u8],
    expr: &Expr,
) -> Result<(), FlatFault>
    ensures given { OnOk result (Links frame.now inner.now
        (λ setting instance child. input_given setting instance child (connection port.now expr.now))
        nodes.old nodes.new driven.old driven.new) }
    ensures fault { IfErr result (LinksTo frame.now inner.now
        (λ setting instance child. input_given setting instance child (connection port.now expr.now)) nodes.old) }
{
    let outside = Sided {
        side: Side::Outside,
        frame: inner,
    };
    let numbers = name_numbers(alloc, &outside, port)?;
    let edges = lower_assigned(alloc, nodes, frame, numbers.len(), expr)?;
    driven.give(numbers.as_slice(), edges.as_slice());
    Ok(())
}

/// What is connected to an output port is given the edges of the port. Nothing where the port is none.
pub(crate) fn give_back(
    alloc: Global,
    frame: &Frame<'_>,
    inner: &Frame<'_>,
    driven: &mut Driven,
    port: &[u8],
    expr: &Expr,
) -> Result<(), FlatFault>
    ensures given { OnOk result (GivesBack frame.now inner.now (back_given (connection port.now expr.now))
        driven.old driven.new) }
    ensures fault { IfErr result (λ fault. fault ≡ Memory) }
{
    if inner.places().nets().is_output(port) {
        give_output(alloc, frame, inner, driven, port, expr)
    } else {
        Ok(())
    }
}

fn give_output(
    alloc: Global,
    frame: &Frame<'_>,
    inner: &Frame<'_>,
    driven: &mut Driven,
    port: &[u8],
    expr: &Expr,
) -> Result<(), FlatFault>
    ensures given { OnOk result (GivesBack frame.now inner.now
        (λ setting instance child. output_drives setting instance child (connection port.now expr.now))
        driven.old driven.new) }
    ensures fault { IfErr result (λ fault. fault ≡ Memory) }
{
    let inside = Sided {
        side: Side::Inside,
        frame,
    };
    let numbers = target_numbers(alloc, &inside, expr)?;
    let edges = port_edges(alloc, inner, port, numbers.len())?;
    driven.give_down(numbers.as_slice(), edges.as_slice());
    Ok(())
}

// The edges of the bits of a port, and zeros above them, up to a width.
fn port_edges(
    alloc: Global,
    inner: &Frame<'_>,
    port: &[u8],
    width: usize,
) -> Result<Items<Edge>, FlatFault>
    ensures edges { IfOk result (λ edges. edges
        ≡ extended width (name_edges inner.now.placing.definition (wires_of inner.now) port.now)) }
    ensures fault { IfErr result (λ fault. fault ≡ Memory) }
{
    let edges = edges_of(alloc, inner, port)?;
    Ok(extended(edges, width)?)
}

fn edges_of(alloc: Global, frame: &Frame<'_>, name: &[u8]) -> Result<Items<Edge>, NoMemory>
    ensures { IfOk result (λ edges. edges ≡ name_edges frame.now.placing.definition (wires_of frame.now) name.now) }
{
    let wire = frame.wire_of(name);
    let mut edges = Items::new(alloc);
    for bit in 0..width_of(frame.places().nets(), name) {
        edges.push(wire.edge(bit))?;
    }
    Ok(edges)
}

// Adds zeros above the edges, up to a width.
#[tactic(auto, using(crate::proofs::EdgeLemmas::one_more))]
fn extended(edges: Items<Edge>, width: usize) -> Result<Items<Edge>, NoMemory>
    ensures { IfOk result (λ all. all ≡ extended width edges) }
{
    let mut all = edges;
    while all.len() < width {
        all.push(Edge::constant(false))?;
    }
    Ok(all)
}

// How many bits a name has.
fn width_of(nets: &Nets<'_>, name: &[u8]) -> usize
    ensures { result ≡ bit_count nets.now name.now }
{
    match nets.find(name) {
        Some(net) => net.width(),
        None => 0,
    }
}
