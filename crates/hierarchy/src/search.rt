//! Which places of a graph are reached from one.
ghost use Rattle.std.specs.Prelude.{◌≡◌, ◌<◌, IfOk, OnOk, ℕ, length, map, true, vec_items};
ghost use Rattle.hierarchy.specs.Graph.{IsClosed, has, is_marked, walks_to};
ghost use Rattle.hierarchy.specs.Marks.{Visits};

use bm_base::NoMemory;
use std::alloc::Global;

/// Marks the places that are reached from one, the place itself among them. Each edge is taken once at most.
pub fn reached_from(
    alloc: Global,
    graph: &[Vec<usize>],
    start: usize,
) -> Result<Vec<bool>, NoMemory>
    requires closed { IsClosed (map vec_items graph.now) }
    requires start { start < length graph.now }
    ensures len { IfOk result (λ marks. length marks.items ≡ length graph.now) }
    ensures marks { IfOk result (λ marks. (place : ℕ) → place < length graph.now
        → is_marked marks.items place ≡ walks_to (map vec_items graph.now) start place) }
{
    let mut marks = vec![in alloc; false; graph.len()]?;
    marks[start] = true;
    let mut to_visit = Vec::new(alloc);
    to_visit.push(start)?;
    while let Some(place) = to_visit.pop() {
        visit(&graph[place], &mut marks, &mut to_visit)?;
    }
    Ok(marks)
}

// Marks these places, and adds to those to visit the ones that were not marked.
fn visit(places: &[usize], marks: &mut [bool], to_visit: &mut Vec<usize>) -> Result<(), NoMemory>
    requires { (place : ℕ) → has places.now place ≡ true → place < length marks.old }
    ensures { OnOk result (Visits places.now marks.old to_visit.old.items marks.new to_visit.new.items) }
{
    for place in places {
        if !marks[*place] {
            marks[*place] = true;
            to_visit.push(*place)?;
        }
    }
    Ok(())
}
