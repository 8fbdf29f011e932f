//! Where steps lead, by the numbers from which they lead there.
ghost use Rattle.std.specs.Prelude.{◌≡◌, ◌<◌, ◌++◌, ◌∷◌, All, IfOk, OnOk, ℕ, length, map, set, slice_index_or, vec_items, []};
ghost use Rattle.clock_sets.specs.Steps.{IsBelow, IsGraph};

use crate::steps::Step;
use bm_base::NoMemory;
use std::alloc::Global;

/// For each number below `count` the numbers to which a step leads from it, and last the starts.
pub(crate) fn graph_of(
    alloc: Global,
    count: usize,
    steps: &[Step],
    starts: &[usize],
) -> Result<Vec<Vec<usize>>, NoMemory>
    requires { All (IsBelow count) steps.now }
    ensures { IfOk result (λ graph. IsGraph count steps.now starts.now (map vec_items graph.items)) }
{
    let mut graph = empty_graph(alloc, count)?;
    graph.push(Vec::from_slice(alloc, starts)?)?;
    for step in steps {
        add_edge(&mut graph, step.from, step.to)?;
    }
    Ok(graph)
}

// So many places, from which no edge leads.
fn empty_graph(alloc: Global, count: usize) -> Result<Vec<Vec<usize>>, NoMemory>
    ensures len { IfOk result (λ graph. length graph.items ≡ count) }
    ensures empty { IfOk result (λ graph. (from : ℕ) → slice_index_or (map vec_items graph.items) from [] ≡ []) }
{
    let mut graph = Vec::new(alloc);
    for _place in 0..count {
        graph.push(Vec::new(alloc))?;
    }
    Ok(graph)
}

fn add_edge(graph: &mut Vec<Vec<usize>>, from: usize, to: usize) -> Result<(), NoMemory>
    requires { from < length graph.old.items }
    ensures { OnOk result (map vec_items graph.new.items
        ≡ set (map vec_items graph.old.items) from (slice_index_or (map vec_items graph.old.items) from [] ++ to ∷ [])) }
{
    graph[from].push(to)?;
    Ok(())
}
