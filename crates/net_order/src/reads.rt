//! What a node reads among those that have marks.
ghost use Rattle.std.specs.Prelude.{◌≡◌, ◌⊎◌, ◌<◌, ◌↔◌, ℕ, IsTrue, MatchOption, Some, false, length, slice_get};
ghost use Rattle.net_loops.specs.Loops.{Reads};
ghost use Rattle.net_order.specs.Marks.{Marked};
ghost use Rattle.net_order.specs.Readings.{IsPending};

use bm_base::Bits;
use flat_net::{Edge, FlatNet, Node};

/// How many nodes there are.
pub(crate) fn count_of(net: &FlatNet) -> u32
    ensures { result ≡ length net.now.nodes }
{
    net.nodes().len() as u32
}

/// Whether a node reads one that has no mark.
pub(crate) fn has_pending(net: &FlatNet, marks: &Bits, number: u32) -> bool
    requires count { length marks.now ≡ length net.now.nodes }
    requires within { number < length net.now.nodes }
    ensures { IsTrue result ↔ ((next : ℕ) × IsPending net.now.nodes marks.now number next) }
{
    match pending(net, marks, number) {
        Some(_) => true,
        None => false,
    }
}

/// A node that the one with this number reads and that has no mark.
pub(crate) fn pending(net: &FlatNet, marks: &Bits, number: u32) -> Option<u32>
    requires count { length marks.now ≡ length net.now.nodes }
    requires within { number < length net.now.nodes }
    ensures { MatchOption result ((next : ℕ) → Reads net.now.nodes number next → Marked marks.now next)
        (λ next. IsPending net.now.nodes marks.now number next) }
{
    match net.nodes()[number as usize] {
        Node::Zero => None,
        Node::Input(_) => None,
        Node::Buf(edge) => without_mark(marks, edge),
        Node::And(left, right) => first_of(marks, left, right),
        Node::Xor(left, right) => first_of(marks, left, right),
        Node::Reg(_) => None,
    }
}

fn first_of(marks: &Bits, left: Edge, right: Edge) -> Option<u32>
    requires left { left.node < length marks.now }
    requires right { right.node < length marks.now }
    ensures { MatchOption result (Marked marks.now left.node × Marked marks.now right.node)
        (λ next. ((left.node ≡ next) ⊎ (right.node ≡ next)) × (slice_get marks.now next ≡ Some false)) }
{
    match without_mark(marks, left) {
        Some(next) => Some(next),
        None => without_mark(marks, right),
    }
}

fn without_mark(marks: &Bits, edge: Edge) -> Option<u32>
    requires { edge.node < length marks.now }
    ensures { MatchOption result (Marked marks.now edge.node)
        (λ next. (edge.node ≡ next) × (slice_get marks.now next ≡ Some false)) }
{
    if marks.get(edge.node as usize) {
        None
    } else {
        Some(edge.node)
    }
}
