//! The edges of names, of their bits and of their parts.
ghost use Rattle.std.specs.Prelude.{◌≡◌, ◌+◌, ◌^◌, ◌<◌, ◌≤◌, IfErr, IfOk, Some, map};
ghost use Rattle.std.specs.List.{range_with_len};
ghost use Rattle.flat_net.specs.declared.fault.FlatFault.TheVariants.{Memory};
ghost use Rattle.vlog_tree.specs.Meaning.Keys.{bit_count};
ghost use Rattle.vlog_tree.specs.Meaning.Ranges.{bit_with, part_bits, range_of, whole_bits};
ghost use Rattle.lowering.specs.Wiring.{edges_of};

use crate::Scope;
use bm_base::{Name, Range};
use flat_net::{Edge, FlatFault};
use nets::place_of;
use sqlite_items::Items;
use std::alloc::Global;
use vlog_tree::Ranges;

/// The edges of a whole name.
pub(crate) fn whole<S: Scope>(
    alloc: Global,
    scope: &S,
    name: &Name,
) -> Result<Items<Edge>, FlatFault>
    ensures edges { IfOk result (λ edges. edges
        ≡ edges_of (S.wires scope.now) (whole_bits (S.module_of scope.now) name.now)) }
    ensures fault { IfErr result (λ fault. fault ≡ Memory) }
{
    match scope.nets().get(name) {
        Some(net) => Ok(wired(alloc, scope, name, 0, net.width())?),
        None => Ok(Items::new(alloc)),
    }
}

/// The edge of the bit with an index, and none where the name's range doesn't have it.
pub(crate) fn bit<S: Scope>(
    alloc: Global,
    scope: &S,
    name: &Name,
    index: u32,
) -> Result<Items<Edge>, FlatFault>
    ensures edges { IfOk result (λ edges. edges
        ≡ edges_of (S.wires scope.now) (bit_with (S.module_of scope.now) name.now index)) }
    ensures fault { IfErr result (λ fault. fault ≡ Memory) }
{
    match scope.nets().range_of(name) {
        Some(range) => Ok(bit_in(alloc, scope, name, range, index)?),
        None => Ok(Items::new(alloc)),
    }
}

#[tactic(auto, using(crate::proofs::WireLemmas::place_within))]
fn bit_in<S: Scope>(
    alloc: Global,
    scope: &S,
    name: &Name,
    range: Range,
    index: u32,
) -> Result<Items<Edge>, FlatFault>
    requires { range_of (S.module_of scope.now) name.now ≡ Some range }
    ensures edges { IfOk result (λ edges. edges
        ≡ edges_of (S.wires scope.now) (bit_with (S.module_of scope.now) name.now index)) }
    ensures fault { IfErr result (λ fault. fault ≡ Memory) }
{
    match place_of(range, index) {
        Some(place) => Ok(wired(alloc, scope, name, place, 1)?),
        None => Ok(Items::new(alloc)),
    }
}

/// The edges of a part, and none where the name's range doesn't have it or runs the other way.
pub(crate) fn part<S: Scope>(
    alloc: Global,
    scope: &S,
    name: &Name,
    part: Range,
) -> Result<Items<Edge>, FlatFault>
    ensures edges { IfOk result (λ edges. edges
        ≡ edges_of (S.wires scope.now) (part_bits (S.module_of scope.now) name.now part)) }
    ensures fault { IfErr result (λ fault. fault ≡ Memory) }
{
    match scope.nets().range_of(name) {
        Some(range) => Ok(part_in(alloc, scope, name, range, part)?),
        None => Ok(Items::new(alloc)),
    }
}

#[tactic(auto, using(crate::proofs::WireLemmas::place_within))]
fn part_in<S: Scope>(
    alloc: Global,
    scope: &S,
    name: &Name,
    range: Range,
    part: Range,
) -> Result<Items<Edge>, FlatFault>
    requires { range_of (S.module_of scope.now) name.now ≡ Some range }
    ensures edges { IfOk result (λ edges. edges
        ≡ edges_of (S.wires scope.now) (part_bits (S.module_of scope.now) name.now part)) }
    ensures fault { IfErr result (λ fault. fault ≡ Memory) }
{
    match (place_of(range, part.left), place_of(range, part.right)) {
        (Some(high), Some(low)) => {
            if low <= high {
                Ok(wired(alloc, scope, name, low, (high - low) as usize + 1)?)
            } else {
                Ok(Items::new(alloc))
            }
        }
        _ => Ok(Items::new(alloc)),
    }
}

// The edges of so many bits of the name, from one up.
fn wired<S: Scope>(
    alloc: Global,
    scope: &S,
    name: &Name,
    low: u32,
    width: usize,
) -> Result<Items<Edge>, FlatFault>
    requires within { low + width ≤ bit_count (S.module_of scope.now) name.now }
    requires small { low + width < 2 ^ 64 }
    ensures edges { IfOk result (λ edges. edges ≡ map (S.wires scope.now name.now) (range_with_len low width)) }
    ensures fault { IfErr result (λ fault. fault ≡ Memory) }
{
    let wire = scope.wire(name);
    let low = low as usize;
    let mut edges = Items::new(alloc);
    for bit in low..low + width {
        edges.push(wire.edge(bit))?;
    }
    Ok(edges)
}
