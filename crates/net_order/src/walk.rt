//! How far nodes are placed.
ghost use Rattle.std.specs.Prelude.{◌≡◌, ◌<◌, IfOk, MatchOption, OnOk, Some, [], length, replicate, slice_get, slice_set, false, true};
ghost use Rattle.net_order.specs.Walks.{begun, finished, fresh, with_top};

use bm_base::{Bits, NoMemory};
use sqlite_items::Items;
use std::alloc::Global;
use std::marker::Model;

/// Which nodes are seen, which of them are placed, the way from one to the node that is being placed, each node of it
/// read by the one before, and the order so far.
#[derive(Drop)]
pub(crate) struct Walk {
    seen: Bits,
    done: Bits,
    stack: Items<u32>,
    order: Items<u32>,
}

impl Model for Walk {
    ghost use Rattle.net_order.specs.Walks.{Progress};

    ghost Value = { Progress };

    ghost view = { λ walk. record {
      seen = walk.seen;
      done = walk.done;
      stack = walk.stack;
      order = walk.order;
    } };
}

impl Walk {
    /// None of so many nodes is seen.
    pub(crate) fn new(alloc: Global, count: usize) -> Result<Walk, NoMemory>
        ensures { IfOk result (λ walk. walk ≡ fresh count) }
    {
        let seen = Bits::zeros(alloc, count)?;
        let done = Bits::zeros(alloc, count)?;
        Ok(Walk {
            seen,
            done,
            stack: Items::new(alloc),
            order: Items::new(alloc),
        })
    }

    pub(crate) fn is_seen(&self, node: u32) -> bool
        requires { node < length self.now.seen }
        ensures { slice_get self.now.seen node ≡ Some result }
    {
        self.seen.get(node as usize)
    }

    /// Which nodes are placed.
    pub(crate) fn done(&self) -> &Bits
        ensures { result.now ≡ self.now.done }
    {
        &self.done
    }

    pub(crate) fn into_order(self) -> Items<u32>
        ensures { result ≡ self.order }
    {
        self.order
    }

    /// Takes the last node of the way.
    pub(crate) fn take(&mut self) -> Option<u32>
        ensures { MatchOption result ((self.old.stack ≡ []) × (self.new ≡ self.old))
            (λ node. self.old ≡ with_top self.new node) }
    {
        self.stack.pop()
    }

    /// Puts a node back that was taken.
    pub(crate) fn put_back(&mut self, node: u32) -> Result<(), NoMemory>
        ensures { OnOk result (self.new ≡ with_top self.old node) }
    {
        self.stack.push(node)?;
        Ok(())
    }

    /// Goes on to a node.
    pub(crate) fn begin(&mut self, node: u32) -> Result<(), NoMemory>
        requires { node < length self.old.seen }
        ensures { OnOk result (self.new ≡ begun self.old node) }
    {
        self.stack.push(node)?;
        self.seen.set(node as usize, true);
        Ok(())
    }

    /// Places a node.
    pub(crate) fn finish(&mut self, node: u32) -> Result<(), NoMemory>
        requires { node < length self.old.done }
        ensures { OnOk result (self.new ≡ finished self.old node) }
    {
        self.order.push(node)?;
        self.done.set(node as usize, true);
        Ok(())
    }
}
