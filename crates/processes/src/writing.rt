//! Edges that are read and written at numbers.
ghost use Rattle.std.specs.Prelude.{◌≡◌, IfOk, Some, map, reverse, slice_index_or};
ghost use Rattle.flat_net.specs.Edges.{zero_edge};
ghost use Rattle.processes.specs.Numbers.{edges_at, put, written};

use flat_net::Edge;
use sqlite_items::Items;
use std::alloc::{AllocError, Global};

/// Writes edges at numbers that stand from the last to the first. Where a number stands twice, the earlier edge counts.
pub(crate) fn write_down(current: &mut Items<Edge>, numbers: &[Option<usize>], edges: &[Edge])
    ensures { current.new ≡ written (reverse numbers.now) edges.now current.old }
{
    for i in 0..numbers.len() {
        put(current, numbers[i], edge_at(edges, numbers.len() - (i + 1)));
    }
}

/// Writes edges at these numbers.
pub(crate) fn write_at(current: &mut Items<Edge>, numbers: &[usize], edges: &[Edge])
    ensures { current.new ≡ written (map Some numbers.now) edges.now current.old }
{
    for i in 0..numbers.len() {
        let place = numbers.len() - (i + 1);
        put(current, Some(numbers[place]), edge_at(edges, place));
    }
}

fn put(current: &mut Items<Edge>, number: Option<usize>, edge: Edge)
    ensures { current.new ≡ put number edge current.old }
{
    if let Some(number) = number {
        put_at(current, number, edge);
    }
}

#[tactic(auto, using(crate::proofs::WriteLemmas::set_outside))]
fn put_at(current: &mut Items<Edge>, number: usize, edge: Edge)
    ensures { current.new ≡ put (Some number) edge current.old }
{
    if number < current.len() {
        current.set(number, edge);
    }
}

/// The edges at these numbers.
pub(crate) fn edges_at(
    alloc: Global,
    current: &[Edge],
    numbers: &[usize],
) -> Result<Items<Edge>, AllocError>
    ensures { IfOk result (λ edges. edges ≡ edges_at numbers.now current.now) }
{
    let mut edges = Items::new(alloc);
    for number in numbers {
        edges.push(edge_at(current, *number))?;
    }
    Ok(edges)
}

// The edge at a place, and zero where there is none.
fn edge_at(edges: &[Edge], place: usize) -> Edge
    ensures { result ≡ slice_index_or edges.now place zero_edge }
{
    match edges.get(place) {
        Some(edge) => *edge,
        None => Edge::constant(false),
    }
}
