//! How far nodes are parted.
ghost use Rattle.std.specs.Prelude.{◌≡◌, ◌<◌, ◌≤◌, IfOk, MatchOption, OnOk, Some, [], length, replicate, slice_get};
ghost use Rattle.net_order.specs.Marks.{Marked, Rising};
ghost use Rattle.net_order.specs.Partings.{
  HasPlaces,
  IsCut,
  IsLowFor,
  entered,
  marked,
  unparted,
  with_first,
  with_firsts,
  with_last,
  with_way,
};

use bm_base::{Bits, NoMemory};
use sqlite_items::Items;
use std::alloc::Global;
use std::marker::Model;

/// Which nodes are seen, which of them are done, since their part is found, and which of these read themselves. The
/// others wait in the order in which they were seen, and know their places there; `way` has the places of those whose
/// reads are being looked at, and `firsts` those where a part begins, as far as it is known.
#[derive(Drop)]
pub(crate) struct Parts {
    seen: Bits,
    done: Bits,
    looped: Bits,
    waiting: Items<u32>,
    places: Items<usize>,
    way: Items<usize>,
    firsts: Items<usize>,
}

impl Model for Parts {
    ghost use Rattle.net_order.specs.Partings.{Parting};

    ghost Value = { Parting };

    ghost view = { λ parts. record {
      seen = parts.seen;
      done = parts.done;
      looped = parts.looped;
      waiting = parts.waiting;
      places = parts.places;
      way = parts.way;
      firsts = parts.firsts;
    } };
}

impl Parts {
    /// None of so many nodes is seen.
    pub(crate) fn new(alloc: Global, count: usize) -> Result<Parts, NoMemory>
        ensures { IfOk result (λ parts. parts ≡ unparted count) }
    {
        let seen = Bits::zeros(alloc, count)?;
        let done = Bits::zeros(alloc, count)?;
        let looped = Bits::zeros(alloc, count)?;
        let places = zeros(alloc, count)?;
        Ok(Parts {
            seen,
            done,
            looped,
            waiting: Items::new(alloc),
            places,
            way: Items::new(alloc),
            firsts: Items::new(alloc),
        })
    }

    pub(crate) fn is_seen(&self, node: u32) -> bool
        requires { node < length self.now.seen }
        ensures { slice_get self.now.seen node ≡ Some result }
    {
        self.seen.get(node as usize)
    }

    /// Which nodes are seen.
    pub(crate) fn seen(&self) -> &Bits
        ensures { result.now ≡ self.now.seen }
    {
        &self.seen
    }

    /// Which nodes are done.
    pub(crate) fn done(&self) -> &Bits
        ensures { result.now ≡ self.now.done }
    {
        &self.done
    }

    /// Which of the nodes that are done read themselves.
    pub(crate) fn into_looped(self) -> Bits
        ensures { result ≡ self.looped }
    {
        self.looped
    }

    /// The node that waits at a place.
    pub(crate) fn node_at(&self, place: usize) -> u32
        requires { place < length self.now.waiting }
        ensures { slice_get self.now.waiting place ≡ Some result }
    {
        self.waiting.as_slice()[place]
    }

    /// The place of a node that waits, or the other one where it is done.
    pub(crate) fn low_of(&self, node: u32, other: usize) -> usize
        requires places { HasPlaces self.now }
        requires seen { Marked self.now.seen node }
        ensures { IsLowFor (λ next. node ≡ next) self.now other result }
    {
        if self.done.get(node as usize) {
            other
        } else {
            self.places.as_slice()[node as usize]
        }
    }

    /// Takes the last place of the way.
    pub(crate) fn take(&mut self) -> Option<usize>
        ensures { MatchOption result ((self.old.way ≡ []) × (self.new ≡ self.old))
            (λ place. self.old ≡ with_way self.new place) }
    {
        self.way.pop()
    }

    /// Puts a place back that was taken.
    pub(crate) fn put_back(&mut self, place: usize) -> Result<(), NoMemory>
        ensures { OnOk result (self.new ≡ with_way self.old place) }
    {
        self.way.push(place)?;
        Ok(())
    }

    /// Goes on to a node.
    pub(crate) fn enter(&mut self, node: u32) -> Result<(), NoMemory>
        requires seen { node < length self.old.seen }
        requires places { node < length self.old.places }
        ensures { OnOk result (self.new ≡ entered self.old node) }
    {
        let place = self.waiting.len();
        self.seen.set(node as usize, true);
        self.places.set(node as usize, place);
        self.waiting.push(node)?;
        self.way.push(place)?;
        self.firsts.push(place)?;
        Ok(())
    }

    /// Joins the parts that begin behind a place to the one before them.
    pub(crate) fn join_behind(&mut self, place: usize) -> Result<(), NoMemory>
        requires { Rising self.old.firsts }
        ensures same { OnOk result (self.new ≡ with_firsts self.old self.new.firsts) }
        ensures cut { OnOk result (IsCut place self.old.firsts self.new.firsts) }
    {
        cut(&mut self.firsts, place)
    }

    /// Takes the place where the last part begins.
    pub(crate) fn take_first(&mut self) -> Option<usize>
        ensures { MatchOption result ((self.old.firsts ≡ []) × (self.new ≡ self.old))
            (λ first. self.old ≡ with_first self.new first) }
    {
        self.firsts.pop()
    }

    /// Puts a place back that was taken.
    pub(crate) fn put_first(&mut self, first: usize) -> Result<(), NoMemory>
        ensures { OnOk result (self.new ≡ with_first self.old first) }
    {
        self.firsts.push(first)?;
        Ok(())
    }

    /// Takes the last node that waits, if it waits at this place or behind it.
    pub(crate) fn take_behind(&mut self, place: usize) -> Option<u32>
        ensures { MatchOption result ((length self.old.waiting ≤ place) × (self.new ≡ self.old))
            (λ node. (place < length self.old.waiting) × (self.old ≡ with_last self.new node)) }
    {
        if self.waiting.len() <= place {
            None
        } else {
            self.waiting.pop()
        }
    }

    /// Marks a node done, and looped or not.
    pub(crate) fn mark(&mut self, node: u32, answer: bool)
        requires done { node < length self.old.done }
        requires looped { node < length self.old.looped }
        ensures { self.new ≡ marked self.old node answer }
    {
        self.done.set(node as usize, true);
        self.looped.set(node as usize, answer);
    }
}

// So many zeros.
fn zeros(alloc: Global, count: usize) -> Result<Items<usize>, NoMemory>
    ensures { IfOk result (λ places. places ≡ replicate count 0) }
{
    let places = vec![in alloc; 0; count]?;
    Ok(Items::from_vec(places))
}

// Takes off the places at the end that are behind this one.
fn cut(firsts: &mut Items<usize>, place: usize) -> Result<(), NoMemory>
    requires { Rising firsts.old }
    ensures { OnOk result (IsCut place firsts.old firsts.new) }
{
    while let Some(last) = firsts.pop() {
        if last <= place {
            firsts.push(last)?;
            return Ok(());
        }
    }
    Ok(())
}
