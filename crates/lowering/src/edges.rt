//! Lists of edges, the least bit first.
ghost use Rattle.std.specs.Prelude.{◌≡◌, ◌++◌, IfErr, IfOk, OnOk, flat_map, map, reverse};
ghost use Rattle.std.specs.List.{repeat};
ghost use Rattle.flat_net.specs.declared.fault.FlatFault.TheVariants.{Memory};
ghost use Rattle.flat_net.specs.Edges.{constant, negated};
ghost use Rattle.lowering.specs.Lowered.{extended};

use bm_base::Bits;
use flat_net::{Edge, FlatFault};
use sqlite_items::Items;
use std::alloc::Global;

/// Each edge negated.
pub(crate) fn all_negated(alloc: Global, edges: &[Edge]) -> Result<Items<Edge>, FlatFault>
    ensures edges { IfOk result (λ all. all ≡ map negated edges.now) }
    ensures fault { IfErr result (λ fault. fault ≡ Memory) }
{
    let mut all = Items::new(alloc);
    for edge in edges {
        all.push(edge.negated())?;
    }
    Ok(all)
}

/// The edges from the last to the first.
pub(crate) fn reversed(alloc: Global, edges: &[Edge]) -> Result<Items<Edge>, FlatFault>
    ensures edges { IfOk result (λ all. all ≡ reverse edges.now) }
    ensures fault { IfErr result (λ fault. fault ≡ Memory) }
{
    let all = edges.iter().rev().copied().collect(alloc)?;
    Ok(Items::from_vec(all))
}

/// Adds zeros above the edges, up to a width.
#[tactic(auto, using(crate::proofs::ListLemmas::extended_more))]
pub(crate) fn extended(edges: Items<Edge>, width: usize) -> Result<Items<Edge>, FlatFault>
    ensures edges { IfOk result (λ all. all ≡ extended width edges) }
    ensures fault { IfErr result (λ fault. fault ≡ Memory) }
{
    let mut all = edges;
    while all.len() < width {
        all.push(Edge::constant(false))?;
    }
    Ok(all)
}

/// The edges of constant bits.
pub(crate) fn constants(alloc: Global, bits: &Bits) -> Result<Items<Edge>, FlatFault>
    ensures edges { IfOk result (λ all. all ≡ map constant bits.now) }
    ensures fault { IfErr result (λ fault. fault ≡ Memory) }
{
    let mut all = Items::new(alloc);
    for i in 0..bits.len() {
        all.push(Edge::constant(bits.get(i)))?;
    }
    Ok(all)
}

/// The same edges so many times.
pub(crate) fn repeated(alloc: Global, count: u32, edges: &[Edge]) -> Result<Items<Edge>, FlatFault>
    ensures edges { IfOk result (λ all. all ≡ repeat count edges.now) }
    ensures fault { IfErr result (λ fault. fault ≡ Memory) }
{
    let mut all = Items::new(alloc);
    for _ in 0..count {
        add_all(&mut all, edges)?;
    }
    Ok(all)
}

fn add_all(all: &mut Items<Edge>, edges: &[Edge]) -> Result<(), FlatFault>
    ensures edges { OnOk result (all.new ≡ all.old ++ edges.now) }
    ensures fault { IfErr result (λ fault. fault ≡ Memory) }
{
    for edge in edges {
        all.push(*edge)?;
    }
    Ok(())
}

/// Adds the edges from the last to the first.
pub(crate) fn add_reversed(
    alloc: Global,
    all: &mut Items<Edge>,
    edges: &[Edge],
) -> Result<(), FlatFault>
    ensures edges { OnOk result (all.new ≡ all.old ++ reverse edges.now) }
    ensures fault { IfErr result (λ fault. fault ≡ Memory) }
{
    let edges = reversed(alloc, edges)?;
    all.append(edges)?;
    Ok(())
}
