//! The names of a module, and the edges of their bits.
ghost use Rattle.std.specs.Prelude.{◌≡◌, ◌+◌, ◌<◌, ℕ};
ghost use Rattle.flat_net.specs.declared.edge.Edge.{Edge};
ghost use Rattle.vlog_tree.specs.declared.design.Module.{Module};
ghost use Rattle.vlog_tree.specs.Meaning.Keys.{bit_count};
ghost use Rattle.vlog_tree.specs.Meaning.Uses.{Text};
ghost use Rattle.lowering.specs.Wiring.{IsWithin, edge_in};

use bm_base::Name;
use flat_net::Edge;
use nets::Nets;

/// Where the bits of a name stand.
#[derive(Clone, Copy, Debug, PartialEq, Eq)]
pub enum Wire {
    /// Each bit is the edge zero.
    Zero,
    /// The right end is the node with this number, and the other bits are those behind it.
    From(u32),
}

impl Wire {
    /// The edge of a bit, counted from the right end.
    pub fn edge(self, bit: usize) -> Edge
        requires { IsWithin self (bit + 1) }
        ensures { result ≡ edge_in self bit }
    {
        match self {
            Wire::Zero => Edge::constant(false),
            Wire::From(first) => Edge::plain(first + bit as u32),
        }
    }
}

/// The names of a module and the edges of their bits.
pub trait Scope {
    /// The module that the names stand in.
    ghost module_of: { Self → Module };

    /// The edge of each bit of a name.
    ghost wires: { Self → Text → ℕ → Edge };

    fn nets(&self) -> &Nets<'_>
        ensures { result.now ≡ module_of self.now };

    /// Where the bits of a name stand.
    fn wire(&self, name: &Name) -> Wire
        ensures edges { (bit : ℕ) → bit < bit_count (module_of self.now) name.now
            → wires self.now name.now bit ≡ edge_in result bit }
        ensures within { IsWithin result (bit_count (module_of self.now) name.now) };
}
