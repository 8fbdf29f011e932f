//! The nodes of bits.
ghost use Rattle.std.specs.Prelude.{◌≡◌, ◌≤◌, ◌++◌, IfOk, OnOk, map};
ghost use Rattle.std.specs.List.{range_with_len};
ghost use Rattle.flat_net.specs.declared.node.Node.TheVariants.{Input, Reg};
ghost use Rattle.flat_net.specs.Nets.{sources};
ghost use Rattle.flatten.specs.Gathered.{node_given};

use bm_base::NoMemory;
use flat_net::{Edge, Node};
use sqlite_items::Items;
use std::alloc::Global;

/// The nodes that stand in front: `Zero`, so many inputs, and so many registers.
pub(crate) fn sources_of(
    alloc: Global,
    inputs: usize,
    registers: usize,
) -> Result<Items<Node>, NoMemory>
    requires inputs_fit { inputs ≤ 4294967296 }
    requires registers_fit { registers ≤ 4294967296 }
    ensures { IfOk result (λ nodes. nodes ≡ sources inputs registers) }
{
    let mut nodes = Items::new(alloc);
    nodes.push(Node::Zero)?;
    add_inputs(&mut nodes, inputs)?;
    add_registers(&mut nodes, registers)?;
    Ok(nodes)
}

fn add_inputs(nodes: &mut Items<Node>, count: usize) -> Result<(), NoMemory>
    requires { count ≤ 4294967296 }
    ensures { OnOk result (nodes.new ≡ nodes.old ++ map Input (range_with_len 0 count)) }
{
    for i in 0..count {
        nodes.push(Node::Input(i as u32))?;
    }
    Ok(())
}

fn add_registers(nodes: &mut Items<Node>, count: usize) -> Result<(), NoMemory>
    requires { count ≤ 4294967296 }
    ensures { OnOk result (nodes.new ≡ nodes.old ++ map Reg (range_with_len 0 count)) }
{
    for i in 0..count {
        nodes.push(Node::Reg(i as u32))?;
    }
    Ok(())
}

/// Adds the nodes of driven bits, by the edges that these were given first.
pub(crate) fn add_driven(nodes: &mut Items<Node>, edges: &[Option<Edge>]) -> Result<(), NoMemory>
    ensures { OnOk result (nodes.new ≡ nodes.old ++ map node_given edges.now) }
{
    for edge in edges {
        nodes.push(node_given(*edge))?;
    }
    Ok(())
}

// A bit that was given no edge reads zero.
fn node_given(edge: Option<Edge>) -> Node
    ensures { result ≡ node_given edge }
{
    match edge {
        Some(edge) => Node::Buf(edge),
        None => Node::Buf(Edge::constant(false)),
    }
}
