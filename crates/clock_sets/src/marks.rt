//! Marks on the numbers to which steps lead.
ghost use Rattle.std.specs.Prelude.{◌≡◌, ◌+◌, ◌<◌, All, IfOk, ℕ, length};
ghost use Rattle.std.specs.List.{list_any};
ghost use Rattle.hierarchy.specs.Graph.{is_marked};
ghost use Rattle.clock_sets.specs.Steps.{IsBelow, goes_to, has_mark};

use crate::graph::graph_of;
use crate::steps::Step;
use bm_base::NoMemory;
use hierarchy::reached_from;
use std::alloc::Global;

/// Marks the numbers below `count` to which steps lead from one of the starts, the starts among them. Each step is taken
/// once at most.
pub(crate) fn spread(
    alloc: Global,
    count: usize,
    steps: &[Step],
    starts: &[usize],
) -> Result<Vec<bool>, NoMemory>
    requires steps { All (IsBelow count) steps.now }
    requires starts { All (λ start. start < count) starts.now }
    ensures len { IfOk result (λ marks. length marks.items ≡ count + 1) }
    ensures marks { IfOk result (λ marks. (n : ℕ) → n < count
        → is_marked marks.items n ≡ list_any (λ start. goes_to steps.now count start n) starts.now) }
{
    let graph = graph_of(alloc, count, steps, starts)?;
    Ok(reached_from(alloc, &graph, count)?)
}

/// Whether the number, if there is one, is marked.
pub(crate) fn has_mark(marks: &[bool], number: Option<usize>) -> bool
    ensures { result ≡ has_mark marks.now number }
{
    match number {
        Some(number) => match marks.get(number) {
            Some(mark) => *mark,
            None => false,
        },
        None => false,
    }
}
