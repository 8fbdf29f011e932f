ghost use Rattle.std.specs.Prelude.{◌≡◌};
ghost use Rattle.flat_net.specs.Edges.{constant, negated, plain};

/// A node, or its negation.
#[derive(Clone, Copy, Debug, PartialEq, Eq)]
pub struct Edge {
    /// The number of the node.
    pub node: u32,
    /// Whether the edge has the other value than the node.
    pub neg: bool,
}

impl Edge {
    /// The edge that has a node's value.
    pub fn plain(node: u32) -> Edge
        ensures { result ≡ plain node }
    {
        Edge { node, neg: false }
    }

    /// The edge that always has this value: node 0 is `Zero`.
    pub fn constant(value: bool) -> Edge
        ensures { result ≡ constant value }
    {
        Edge {
            node: 0,
            neg: value,
        }
    }

    /// The edge that has the other value.
    pub fn negated(self) -> Edge
        ensures { result ≡ negated self }
    {
        Edge {
            node: self.node,
            neg: !self.neg,
        }
    }
}
