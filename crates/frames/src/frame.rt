//! The names of one instance.
ghost use Rattle.std.specs.Prelude.{◌≡◌, ◌<◌, ◌≤◌, ◌+◌, ℕ, IfSome, None, Some, length};
ghost use Rattle.std.specs.Option.{option_map};
ghost use Rattle.bm_base.specs.declared.size.Size.TheVariants.{Nodes};
ghost use Rattle.bm_base.specs.Size.{limit_of};
ghost use Rattle.lowering.specs.Wiring.{IsWithin, edge_in};
ghost use Rattle.flat_net.specs.Edges.{plain};
ghost use Rattle.numbering.specs.Places.{placed_driven, placed_registers};
ghost use Rattle.vlog_tree.specs.Meaning.Keys.{bit_count};
ghost use Rattle.vlog_tree.specs.Meaning.Lefts.{Bit, bit_of, number_in};
ghost use Rattle.frames.specs.Framed.{AreInside, IsSmall, framed, wire_of, wires_of};

use bm_base::Name;
use lowering::{Scope, Wire};
use nets::Nets;
use numbering::{ModulePlaces, Place};
use std::marker::Model;

/// The names of one instance, with the edges of their bits.
#[derive(Drop)]
pub struct Frame<'f> {
    places: &'f ModulePlaces<'f>,
    first_register: usize,
    first_driven: usize,
    inputs: usize,
    registers: usize,
}

impl<'f> Model for Frame<'f> {
    ghost use Rattle.std.specs.Coded.{codes};
    ghost use Rattle.vlog_tree.specs.contracts.design.Module as tree;
    ghost use Rattle.frames.specs.Framed.{AreInside, Framed, framed};

    ghost Value = { Framed };

    ghost coded = { Prim.hlevel (codes, tree.the_row.coded) };

    ghost view = { λ it. framed it.places.now it.first_register it.first_driven it.inputs it.registers };

    ghost invariant = { λ it. AreInside (framed it.places.now it.first_register it.first_driven it.inputs it.registers) };
}

impl<'f> Frame<'f> {
    pub(crate) fn of(
        places: &'f ModulePlaces<'f>,
        first_register: usize,
        first_driven: usize,
        inputs: usize,
        registers: usize,
    ) -> Frame<'f>
        requires { AreInside (framed places.now first_register first_driven inputs registers) }
        ensures { result ≡ framed places.now first_register first_driven inputs registers }
    {
        Frame {
            places,
            first_register,
            first_driven,
            inputs,
            registers,
        }
    }
}

impl<'f> Frame<'f> {
    /// Where the bits of the names stand among those of their module.
    pub fn places(&self) -> &'f ModulePlaces<'f>
        ensures { result.now ≡ self.now.placing }
    {
        self.places
    }

    /// The number of the node of the first register bit. Those of the others follow, in the order of these bits.
    pub fn first_register(&self) -> u32
        ensures edges { (bit : Bit) (place : ℕ) → number_in (placed_registers self.now.placing) bit ≡ Some place
            → wires_of self.now bit.name bit.place ≡ plain (result + place) }
        ensures within { result + length (placed_registers self.now.placing) ≤ limit_of Nodes }
    {
        (1 + self.inputs + self.first_register) as u32
    }

    /// The place of the lowest bit of a name among all driven bits. Nothing where its bits are not driven.
    pub fn driven_at(&self, name: &[u8]) -> Option<usize>
        ensures place { IfSome result (λ place. (bit : ℕ) → bit < bit_count self.now.placing.definition name.now
            → option_map (λ number. self.now.first_driven + number)
            (number_in (placed_driven self.now.placing) (bit_of name.now bit)) ≡ Some (place + bit)) }
        ensures within { IfSome result (λ place. place + bit_count self.now.placing.definition name.now ≤ limit_of Nodes) }
        ensures none { result ≡ None → (bit : ℕ) → bit < bit_count self.now.placing.definition name.now
            → number_in (placed_driven self.now.placing) (bit_of name.now bit) ≡ None }
    {
        match self.places.place(name) {
            Some(Place::Driven(first)) => Some(self.first_driven + first),
            Some(Place::Clock) => None,
            Some(Place::Input(_)) => None,
            Some(Place::Register(_)) => None,
            None => None,
        }
    }
}

impl<'f> Scope for Frame<'f> {
    ghost use Rattle.frames.specs.Framed.{wires_of};

    ghost module_of = { λ it. it.placing.definition };

    ghost wires = { wires_of };

    fn nets(&self) -> &Nets<'_> {
        self.places.nets()
    }

    fn wire(&self, name: &Name) -> Wire {
        self.wire_of(name.bytes())
    }
}

impl<'f> Frame<'f> {
    /// Where the bits of a name stand among all nodes.
    pub fn wire_of(&self, name: &[u8]) -> Wire
        ensures edges { (bit : ℕ) → bit < bit_count self.now.placing.definition name.now
            → wires_of self.now name.now bit ≡ edge_in result bit }
        ensures within { IsWithin result (bit_count self.now.placing.definition name.now) }
    {
        match self.places.place(name) {
            Some(place) => self.wire_at(place),
            None => Wire::Zero,
        }
    }

    // The bits of the place among all nodes.
    fn wire_at(&self, place: Place) -> Wire
        requires { IsSmall place }
        ensures { result ≡ wire_of self.now place }
    {
        match place {
            Place::Clock => Wire::Zero,
            Place::Input(first) => Wire::From((1 + first) as u32),
            Place::Register(first) => {
                Wire::From((1 + self.inputs + self.first_register + first) as u32)
            }
            Place::Driven(first) => {
                Wire::From((1 + self.inputs + self.registers + self.first_driven + first) as u32)
            }
        }
    }
}
