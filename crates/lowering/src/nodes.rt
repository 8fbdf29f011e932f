ghost use Rattle.std.specs.Prelude.{◌≡◌, ◌+◌, ◌≤◌, [], ◌∷◌, IfErr, IfOk, OnOk};
ghost use Rattle.bm_base.specs.declared.size.Size.TheVariants.{Nodes as NodesSize};
ghost use Rattle.bm_base.specs.Size.{limit_of};
ghost use Rattle.flat_net.specs.Edges.{plain};
ghost use Rattle.lowering.specs.Limits.{Excuses, next_of, with_more};
ghost use Rattle.lowering.specs.Lowered.{lowered};

use bm_base::Size;
use flat_net::{Edge, FlatFault, Node};
use sqlite_items::Items;
use std::alloc::Global;
use std::marker::Model;

/// Nodes that are added one after another, up to the limit on nodes.
#[derive(Debug, Drop)]
pub struct Nodes {
    // How many nodes stand before these.
    first: u32,
    nodes: Items<Node>,
}

impl Model for Nodes {
    ghost use Rattle.std.specs.Prelude.{◌≤◌};
    ghost use Rattle.bm_base.specs.declared.size.Size.TheVariants.{Nodes as NodesSize};
    ghost use Rattle.bm_base.specs.Size.{limit_of};
    ghost use Rattle.lowering.specs.Limits.{Added, next_of};

    ghost Value = { Added };

    ghost view = { λ it. record { first = it.first; nodes = it.nodes } };

    ghost invariant = { λ it. next_of record { first = it.first; nodes = it.nodes } ≤ limit_of NodesSize };
}

impl Nodes {
    /// No node so far, behind so many that are there already.
    pub fn new(alloc: Global, first: u32) -> Nodes
        requires { first ≤ limit_of NodesSize }
        ensures { result ≡ record { first = first; nodes = [] } }
    {
        Nodes {
            first,
            nodes: Items::new(alloc),
        }
    }

    /// The number of the node that is added next.
    pub fn next(&self) -> u32
        ensures number { result ≡ next_of self.now }
        ensures within { result ≤ limit_of NodesSize }
    {
        self.first + self.nodes.len() as u32
    }

    /// Adds a node. The edge has its value.
    pub fn push(&mut self, node: Node) -> Result<Edge, FlatFault>
        ensures nodes { OnOk result (self.new ≡ with_more self.old (lowered (node ∷ []) [])) }
        ensures edge { IfOk result (λ edge. edge ≡ plain (next_of self.old)) }
        ensures fault { IfErr result (Excuses (next_of self.old + 1)) }
    {
        let next = self.next();
        if next as u64 == Size::Nodes.limit() {
            return Err(FlatFault::TooLarge { what: Size::Nodes });
        }
        self.nodes.push(node)?;
        Ok(Edge::plain(next))
    }

    /// The nodes that were added.
    pub fn into_items(self) -> Items<Node>
        ensures { result ≡ self.nodes }
    {
        self.nodes
    }
}
