//! Which nodes read themselves, found by parts: two nodes are in one part where each leads to the other.
ghost use Rattle.std.specs.Prelude.{◌≡◌, ◌⊎◌, ◌<◌, ◌≤◌, ℕ, IfOk, OnOk, Some, [], length, slice_get};
ghost use Rattle.net_loops.specs.Loops.{Reads};
ghost use Rattle.net_order.specs.Marks.{Grows, Marked};
ghost use Rattle.net_order.specs.Partings.{
  AreLoops,
  HasPlaces,
  IsLow,
  IsLowFor,
  IsParting,
  IsTaken,
  StaysIn,
  parting_size,
  with_first,
  with_way,
};

use crate::parts::Parts;
use crate::reads::{count_of, has_pending, pending};
use bm_base::{Bits, NoMemory};
use flat_net::{Edge, FlatNet, Node};
use std::alloc::Global;

/// Which nodes read themselves. Looks at each edge a fixed number of times at most.
pub(crate) fn loops_of(alloc: Global, net: &FlatNet) -> Result<Bits, NoMemory>
    ensures { IfOk result (λ marks. AreLoops net.now.nodes marks) }
{
    let mut parts = Parts::new(alloc, net.nodes().len())?;
    for node in 0..count_of(net) {
        part_from(net, &mut parts, node)?;
    }
    Ok(parts.into_looped())
}

// Finds the part of a node, and those of all that it leads to.
fn part_from(net: &FlatNet, parts: &mut Parts, node: u32) -> Result<(), NoMemory>
    requires parts { IsParting net.now.nodes parts.old }
    requires rest { parts.old.way ≡ [] }
    requires within { node < length net.now.nodes }
    ensures parts { OnOk result (IsParting net.now.nodes parts.new) }
    ensures rest { OnOk result (parts.new.way ≡ []) }
    ensures grows { OnOk result (Grows parts.old.seen parts.new.seen) }
    ensures seen { OnOk result (Marked parts.new.seen node) }
{
    if parts.is_seen(node) {
        return Ok(());
    }
    parts.enter(node)?;
    while let Some(place) = parts.take() {
        step(net, parts, place)?;
    }
    Ok(())
}

// Goes on to a node that the last one of the way reads and that is not seen, or leaves the last one.
fn step(net: &FlatNet, parts: &mut Parts, place: usize) -> Result<(), NoMemory>
    requires { IsParting net.now.nodes (with_way parts.old place) }
    ensures parts { OnOk result (IsParting net.now.nodes parts.new) }
    ensures grows { OnOk result (Grows parts.old.seen parts.new.seen) }
    ensures smaller { OnOk result (parting_size parts.new < parting_size (with_way parts.old place)) }
{
    let node = parts.node_at(place);
    match pending(net, parts.seen(), node) {
        Some(next) => {
            parts.put_back(place)?;
            parts.enter(next)?;
            Ok(())
        }
        None => leave(net, parts, place, node),
    }
}

// Leaves the last node of the way, all reads of which are seen.
fn leave(net: &FlatNet, parts: &mut Parts, place: usize, node: u32) -> Result<(), NoMemory>
    requires parts { IsParting net.now.nodes (with_way parts.old place) }
    requires here { slice_get parts.old.waiting place ≡ Some node }
    requires reads { (next : ℕ) → Reads net.now.nodes node next → Marked parts.old.seen next }
    ensures parts { OnOk result (IsParting net.now.nodes parts.new) }
    ensures seen { OnOk result (parts.new.seen ≡ parts.old.seen) }
    ensures way { OnOk result (parts.new.way ≡ parts.old.way) }
{
    let low = low_place(net, parts, place, node);
    parts.join_behind(low)?;
    close(net, parts, place, node)
}

// Takes the last part, if this node is its first.
fn close(net: &FlatNet, parts: &mut Parts, place: usize, node: u32) -> Result<(), NoMemory>
    requires parts { IsParting net.now.nodes (with_way parts.old place) }
    requires here { slice_get parts.old.waiting place ≡ Some node }
    requires stays { (next : ℕ) → Reads net.now.nodes node next →
        StaysIn parts.old.done parts.old.waiting parts.old.firsts place next }
    ensures parts { OnOk result (IsParting net.now.nodes parts.new) }
    ensures seen { OnOk result (parts.new.seen ≡ parts.old.seen) }
    ensures way { OnOk result (parts.new.way ≡ parts.old.way) }
{
    match parts.take_first() {
        Some(first) => {
            if first == place {
                take_part(net, parts, place, node);
                Ok(())
            } else {
                parts.put_first(first)?;
                Ok(())
            }
        }
        None => Ok(()),
    }
}

// Takes the last part, which begins at this place. Its nodes read themselves exactly where its first one reads any node
// that is not done: that one leads back.
fn take_part(net: &FlatNet, parts: &mut Parts, place: usize, node: u32)
    requires parts { IsParting net.now.nodes (with_way (with_first parts.old place) place) }
    requires here { slice_get parts.old.waiting place ≡ Some node }
    requires stays { (next : ℕ) → Reads net.now.nodes node next →
        StaysIn parts.old.done parts.old.waiting (with_first parts.old place).firsts place next }
    ensures parts { IsParting net.now.nodes parts.new }
    ensures seen { parts.new.seen ≡ parts.old.seen }
    ensures way { parts.new.way ≡ parts.old.way }
{
    let answer = has_pending(net, parts.done(), node);
    take_off(parts, place, answer);
}

// Takes all nodes that wait at a place or behind it.
fn take_off(parts: &mut Parts, place: usize, answer: bool)
    requires places { HasPlaces parts.old }
    requires within { place ≤ length parts.old.waiting }
    ensures taken { IsTaken answer parts.old parts.new }
    ensures count { length parts.new.waiting ≡ place }
{
    while let Some(node) = parts.take_behind(place) {
        parts.mark(node, answer);
    }
}

// The least of the places of what a node reads; for what is done stands the node's own place.
fn low_place(net: &FlatNet, parts: &Parts, place: usize, number: u32) -> usize
    requires places { HasPlaces parts.now }
    requires within { number < length net.now.nodes }
    requires reads { (next : ℕ) → Reads net.now.nodes number next → Marked parts.now.seen next }
    ensures { IsLow net.now.nodes parts.now place number result }
{
    match net.nodes()[number as usize] {
        Node::Zero => place,
        Node::Input(_) => place,
        Node::Reg(_) => place,
        Node::Buf(edge) => parts.low_of(edge.node, place),
        Node::And(left, right) => lower(parts, place, left, right),
        Node::Xor(left, right) => lower(parts, place, left, right),
    }
}

fn lower(parts: &Parts, place: usize, left: Edge, right: Edge) -> usize
    requires places { HasPlaces parts.now }
    requires left { Marked parts.now.seen left.node }
    requires right { Marked parts.now.seen right.node }
    ensures { IsLowFor (λ next. (left.node ≡ next) ⊎ (right.node ≡ next)) parts.now place result }
{
    let first = parts.low_of(left.node, place);
    let second = parts.low_of(right.node, place);
    if first < second { first } else { second }
}
