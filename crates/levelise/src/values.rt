//! The values of nodes and edges.
ghost use Rattle.std.specs.Prelude.{◌≡◌, ◌<◌, All, Some, fold, length, map, slice_get};
ghost use Rattle.flat_net.specs.Nets.{IsWithin};
ghost use Rattle.flat_net.specs.Values.{edge_value, node_value};
ghost use Rattle.levelise.specs.Evaluation.{CanRead, IsPlaced, with_value};
ghost use Rattle.levelise.specs.Machine.{known};

use crate::placed::Placed;
use bm_base::Bits;
use flat_net::{Edge, Node};

/// Sets the value of each node, one after another.
pub(crate) fn set_values(nodes: &[Placed], state: &Bits, row: &Bits, work: &mut Bits)
    requires { All (IsPlaced (length row.now) (length state.now) (length work.old)) nodes.now }
    ensures { work.new ≡ fold (with_value state.now row.now) work.old nodes.now }
{
    for placed in nodes {
        let value = node_bit(placed.node, state, row, work);
        work.set(placed.number as usize, value);
    }
}

// The value of a node, by the values of those that it reads.
fn node_bit(node: Node, state: &Bits, row: &Bits, work: &Bits) -> bool
    requires { CanRead (length row.now) (length state.now) (length work.now) node }
    ensures { node_value state.now row.now (slice_get work.now) node ≡ Some result }
{
    match node {
        Node::Zero => false,
        Node::Input(place) => row.get(place as usize),
        Node::Reg(place) => state.get(place as usize),
        Node::Buf(edge) => edge_bit(edge, work),
        Node::And(left, right) => edge_bit(left, work) & edge_bit(right, work),
        Node::Xor(left, right) => edge_bit(left, work) ^ edge_bit(right, work),
    }
}

/// The value of an edge, by those of the nodes.
pub(crate) fn edge_bit(edge: Edge, work: &Bits) -> bool
    requires { edge.node < length work.now }
    ensures { edge_value (slice_get work.now) edge ≡ Some result }
{
    edge.neg ^ work.get(edge.node as usize)
}

/// Sets each bit to the value of an edge.
pub(crate) fn set_edges(edges: &[Edge], work: &Bits, bits: &mut Bits)
    requires count { length bits.old ≡ length edges.now }
    requires within { All (IsWithin (length work.now)) edges.now }
    ensures { bits.new ≡ map (λ edge. known (edge_value (slice_get work.now) edge)) edges.now }
{
    for (i, edge) in edges.iter().enumerate() {
        bits.set(i, edge_bit(*edge, work));
    }
}
