ghost use Rattle.std.specs.Prelude.{◌≡◌, IfOk, None, Some, map, replicate, reverse, slice_index_or, slice_set};
ghost use Rattle.std.specs.List.{zip};
ghost use Rattle.drives.specs.Given.{entered, given_all, given_one};

use bm_base::NoMemory;
use flat_net::Edge;
use sqlite_items::Items;
use std::alloc::Global;
use std::marker::Model;

/// For each driven bit of a design the edge that it was given first, if it was given one. Contracts see it as their list.
#[derive(Debug, Drop)]
pub struct Driven {
    edges: Items<Option<Edge>>,
}

impl Model for Driven {
    ghost use Rattle.std.specs.Prelude.{List, Option};
    ghost use Rattle.flat_net.specs.declared.edge.Edge.{Edge as EdgeValue};

    ghost Value = { List (Option EdgeValue) };

    ghost view = { λ it. it.edges };
}

impl Driven {
    /// So many bits, none of which was given an edge.
    pub fn new(alloc: Global, count: usize) -> Result<Driven, NoMemory>
        ensures { IfOk result (λ driven. driven ≡ replicate count None) }
    {
        let edges = vec![in alloc; None; count]?;
        Ok(Driven {
            edges: Items::from_vec(edges),
        })
    }

    /// The first edge of each bit.
    pub fn edges(&self) -> &[Option<Edge>]
        ensures { result.now ≡ self.now }
    {
        self.edges.as_slice()
    }

    /// Gives edges to the bits of these numbers, one for each, as long as there are both.
    pub fn give(&mut self, numbers: &[Option<usize>], edges: &[Edge])
        ensures { self.new ≡ given_all self.old (zip numbers.now edges.now) }
    {
        for i in 0..numbers.len().min(edges.len()) {
            self.give_one(numbers[i], edges[i]);
        }
    }

    /// The same where the numbers stand from the last to the first.
    pub fn give_down(&mut self, numbers: &[Option<usize>], edges: &[Edge])
        ensures { self.new ≡ given_all self.old (zip (reverse numbers.now) edges.now) }
    {
        for i in 0..numbers.len().min(edges.len()) {
            self.give_one(numbers[numbers.len() - (i + 1)], edges[i]);
        }
    }

    /// Gives one edge to all bits of these numbers, which stand from the last to the first.
    pub fn give_same(&mut self, numbers: &[Option<usize>], edge: Edge)
        ensures { self.new ≡ given_all self.old (map (λ number. (number, edge)) (reverse numbers.now)) }
    {
        for i in 0..numbers.len() {
            self.give_one(numbers[numbers.len() - (i + 1)], edge);
        }
    }

    fn give_one(&mut self, number: Option<usize>, edge: Edge)
        ensures { self.new ≡ given_one self.old number edge }
    {
        if let Some(number) = number {
            self.give_at(number, edge);
        }
    }

    #[tactic(auto, using(crate::proofs::EntryLemmas::outside))]
    fn give_at(&mut self, number: usize, edge: Edge)
        ensures { self.new ≡ slice_set self.old number (entered (slice_index_or self.old number None) edge) }
    {
        if number < self.edges.len() {
            let entry = entered(self.edges.as_slice()[number], edge);
            self.edges.set(number, entry);
        }
    }
}

// The first edge stays.
fn entered(entry: Option<Edge>, edge: Edge) -> Option<Edge>
    ensures { result ≡ entered entry edge }
{
    match entry {
        None => Some(edge),
        Some(first) => Some(first),
    }
}
