//! Placing nodes, each after all that it reads.
ghost use Rattle.std.specs.Prelude.{◌≡◌, ◌<◌, ℕ, IfErr, OnOk, [], length};
ghost use Rattle.net_order.specs.Faults.{NamesLoop};
ghost use Rattle.net_order.specs.Marks.{Grows, Marked};
ghost use Rattle.net_order.specs.Readings.{IsPending};
ghost use Rattle.net_order.specs.Walks.{IsWalk, size_of, with_top};

use crate::OrderFault;
use crate::reads::{count_of, pending};
use crate::walk::Walk;
use flat_net::FlatNet;

/// Places all nodes, where none reads itself. Looks at each edge three times at most.
pub(crate) fn place_all(net: &FlatNet, walk: &mut Walk) -> Result<(), OrderFault>
    requires walk { IsWalk net.now.nodes walk.old }
    requires rest { walk.old.stack ≡ [] }
    ensures walk { OnOk result (IsWalk net.now.nodes walk.new) }
    ensures rest { OnOk result (walk.new.stack ≡ []) }
    ensures all { OnOk result ((node : ℕ) → node < length net.now.nodes → Marked walk.new.seen node) }
    ensures found { IfErr result (NamesLoop net.now.nodes) }
{
    for node in 0..count_of(net) {
        place(net, walk, node)?;
    }
    Ok(())
}

// Places a node, and before it all that it reads.
fn place(net: &FlatNet, walk: &mut Walk, node: u32) -> Result<(), OrderFault>
    requires walk { IsWalk net.now.nodes walk.old }
    requires rest { walk.old.stack ≡ [] }
    requires within { node < length net.now.nodes }
    ensures walk { OnOk result (IsWalk net.now.nodes walk.new) }
    ensures rest { OnOk result (walk.new.stack ≡ []) }
    ensures grows { OnOk result (Grows walk.old.seen walk.new.seen) }
    ensures seen { OnOk result (Marked walk.new.seen node) }
    ensures found { IfErr result (NamesLoop net.now.nodes) }
{
    if walk.is_seen(node) {
        return Ok(());
    }
    walk.begin(node)?;
    while let Some(last) = walk.take() {
        step(net, walk, last)?;
    }
    Ok(())
}

// Places the last node of the way, or goes on to one that it reads.
fn step(net: &FlatNet, walk: &mut Walk, last: u32) -> Result<(), OrderFault>
    requires { IsWalk net.now.nodes (with_top walk.old last) }
    ensures walk { OnOk result (IsWalk net.now.nodes walk.new) }
    ensures grows { OnOk result (Grows walk.old.seen walk.new.seen) }
    ensures smaller { OnOk result (size_of walk.new < size_of (with_top walk.old last)) }
    ensures found { IfErr result (NamesLoop net.now.nodes) }
{
    match pending(net, walk.done(), last) {
        Some(next) => go_on(net, walk, last, next),
        None => {
            walk.finish(last)?;
            Ok(())
        }
    }
}

// Goes on to a node that the last one reads, unless the way has come to it before.
fn go_on(net: &FlatNet, walk: &mut Walk, last: u32, next: u32) -> Result<(), OrderFault>
    requires walk { IsWalk net.now.nodes (with_top walk.old last) }
    requires pending { IsPending net.now.nodes walk.old.done last next }
    ensures walk { OnOk result (IsWalk net.now.nodes walk.new) }
    ensures grows { OnOk result (Grows walk.old.seen walk.new.seen) }
    ensures smaller { OnOk result (size_of walk.new < size_of (with_top walk.old last)) }
    ensures found { IfErr result (NamesLoop net.now.nodes) }
{
    if walk.is_seen(next) {
        return Err(OrderFault::Loop { node: next });
    }
    walk.put_back(last)?;
    walk.begin(next)?;
    Ok(())
}
