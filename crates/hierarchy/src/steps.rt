//! To which places of a graph a path with a given number of edges leads.
ghost use Rattle.std.specs.Prelude.{◌≡◌, ◌<◌, ◌||◌, IfOk, ℕ, length, map, true, vec_items};
ghost use Rattle.hierarchy.specs.Graph.{IsClosed, ends_path, has, is_marked, is_stepped_to, walks};

use bm_base::NoMemory;
use std::alloc::Global;

/// How many edges a path from the top may have.
const GREATEST_PATH: usize = 64;

/// Marks the places to which a path of the greatest length leads.
pub(crate) fn ends_of_longest(
    alloc: Global,
    graph: &[Vec<usize>],
    start: usize,
) -> Result<Vec<bool>, NoMemory>
    requires closed { IsClosed (map vec_items graph.now) }
    requires start { start < length graph.now }
    ensures len { IfOk result (λ marks. length marks.items ≡ length graph.now) }
    ensures marks { IfOk result (λ marks. (place : ℕ) → place < length graph.now
        → is_marked marks.items place ≡ ends_path (map vec_items graph.now) start place) }
{
    Ok(ends_of_paths(alloc, graph, start, GREATEST_PATH)?)
}

// Marks the places to which a path with so many edges leads.
fn ends_of_paths(
    alloc: Global,
    graph: &[Vec<usize>],
    start: usize,
    count: usize,
) -> Result<Vec<bool>, NoMemory>
    requires closed { IsClosed (map vec_items graph.now) }
    requires start { start < length graph.now }
    ensures len { IfOk result (λ marks. length marks.items ≡ length graph.now) }
    ensures marks { IfOk result (λ marks. (place : ℕ) → place < length graph.now
        → is_marked marks.items place ≡ walks (map vec_items graph.now) count start place) }
{
    let mut marks = vec![in alloc; false; graph.len()]?;
    marks[start] = true;
    for _step in 0..count {
        marks = step(alloc, graph, &marks)?;
    }
    Ok(marks)
}

// Marks the places to which an edge leads from a marked one.
fn step(alloc: Global, graph: &[Vec<usize>], marks: &[bool]) -> Result<Vec<bool>, NoMemory>
    requires closed { IsClosed (map vec_items graph.now) }
    requires len { length marks.now ≡ length graph.now }
    ensures len { IfOk result (λ next. length next.items ≡ length graph.now) }
    ensures marks { IfOk result (λ next. (place : ℕ) → is_marked next.items place
        ≡ is_stepped_to (map vec_items graph.now) marks.now (length graph.now) place) }
{
    let mut next = vec![in alloc; false; graph.len()]?;
    for (place, inner) in graph.iter().enumerate() {
        if marks[place] {
            mark(inner, &mut next);
        }
    }
    Ok(next)
}

fn mark(places: &[usize], marks: &mut [bool])
    requires { (place : ℕ) → has places.now place ≡ true → place < length marks.old }
    ensures { (place : ℕ) → is_marked marks.new place ≡ (is_marked marks.old place || has places.now place) }
{
    for place in places {
        marks[*place] = true;
    }
}
