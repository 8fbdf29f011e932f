//! How the places of a graph are reached from its top.
ghost use Rattle.std.specs.Prelude.{◌≡◌, ◌<◌, IfOk, IfSome, ℕ, length, map, false, true, vec_items};
ghost use Rattle.hierarchy.specs.Graph.{IsClosed, ahead, ends_path, has, is_bad_edge, is_marked, walks_to};

use crate::search::reached_from;
use crate::steps::ends_of_longest;
use bm_base::NoMemory;
use std::alloc::Global;
use std::marker::Model;

/// A graph, looked at from one of its places.
#[derive(Drop)]
pub(crate) struct Reach {
    graph: Vec<Vec<usize>>,
    top: usize,
    reached: Vec<bool>,
    // where paths of the greatest length end
    ends: Vec<bool>,
    // whether no edge leads on from there, so that no edge from a reached place leads back to it
    is_short: bool,
}

impl Model for Reach {
    ghost use Rattle.std.specs.Prelude.{map, vec_items};
    ghost use Rattle.hierarchy.specs.Graph.{IsKept, Rooted};

    ghost Value = { Rooted };

    ghost view = { λ it. record { graph = map vec_items it.graph.items; top = it.top } };

    ghost invariant = { λ it. IsKept (map vec_items it.graph.items) it.top it.reached.items it.ends.items it.is_short };
}

impl Reach {
    pub(crate) fn new(alloc: Global, graph: Vec<Vec<usize>>, top: usize) -> Result<Reach, NoMemory>
        requires closed { IsClosed (map vec_items graph.items) }
        requires top { top < length graph.items }
        ensures { IfOk result (λ reach. reach ≡ record { graph = map vec_items graph.items; top = top }) }
    {
        let reached = reached_from(alloc, &graph, top)?;
        let ends = ends_of_longest(alloc, &graph, top)?;
        let is_short = none_leads_on(&graph, &ends);
        Ok(Reach {
            graph,
            top,
            reached,
            ends,
            is_short,
        })
    }

    pub(crate) fn is_reached(&self, place: usize) -> bool
        requires { place < length self.now.graph }
        ensures { result ≡ walks_to self.now.graph self.now.top place }
    {
        self.reached[place]
    }

    // Whether a path of the greatest length ends at the place.
    fn is_end(&self, place: usize) -> bool
        requires { place < length self.now.graph }
        ensures { result ≡ ends_path self.now.graph self.now.top place }
    {
        self.ends[place]
    }

    /// Whether an instance at a reached place, of the module at the other, is refused.
    pub(crate) fn is_bad(
        &self,
        alloc: Global,
        outer: usize,
        inner: Option<usize>,
    ) -> Result<bool, NoMemory>
        requires within { outer < length self.now.graph }
        requires reached { walks_to self.now.graph self.now.top outer ≡ true }
        requires edge { IfSome inner (λ inner. has (ahead self.now.graph outer) inner ≡ true) }
        ensures { IfOk result (λ bad. bad ≡ is_bad_edge self.now outer inner) }
    {
        if self.is_end(outer) {
            return Ok(true);
        }
        match inner {
            Some(inner) => Ok(self.leads_back(alloc, outer, inner)?),
            None => Ok(true),
        }
    }

    // Whether the place to which an edge leads from a reached one reaches that.
    fn leads_back(&self, alloc: Global, outer: usize, inner: usize) -> Result<bool, NoMemory>
        requires within { outer < length self.now.graph }
        requires reached { walks_to self.now.graph self.now.top outer ≡ true }
        requires edge { has (ahead self.now.graph outer) inner ≡ true }
        ensures { IfOk result (λ back. back ≡ walks_to self.now.graph inner outer) }
    {
        if self.is_short || self.leads_nowhere(outer, inner) {
            return Ok(false);
        }
        let marks = reached_from(alloc, &self.graph, inner)?;
        Ok(marks[outer])
    }

    // Whether the place is another one, from which no edge leads.
    fn leads_nowhere(&self, outer: usize, inner: usize) -> bool
        requires { inner < length self.now.graph }
        ensures { result ≡ true → walks_to self.now.graph inner outer ≡ false }
    {
        inner != outer && self.graph[inner].is_empty()
    }
}

// Whether no edge leads from a marked place.
fn none_leads_on(graph: &[Vec<usize>], marks: &[bool]) -> bool
    requires { length marks.now ≡ length graph.now }
    ensures { result ≡ true → (from to : ℕ) → is_marked marks.now from ≡ true
        → has (ahead (map vec_items graph.now) from) to ≡ true → ⊥ }
{
    for (place, inner) in graph.iter().enumerate() {
        if marks[place] && !inner.is_empty() {
            return false;
        }
    }
    true
}
