//! Where the bits of a module's names stand.
ghost use Rattle.std.specs.Prelude.{◌≡◌, ◌≤◌, ◌+◌, [], ◌∷◌, ◌++◌, IfErr, IfOk, IfSome, OnOk, is_some, length};
ghost use Rattle.std.specs.Option.{option_copied};
ghost use Rattle.bm_base.specs.declared.size.Size.TheVariants.{Nodes};
ghost use Rattle.bm_base.specs.Size.{limit_of};
ghost use Rattle.lowering.specs.Limits.{Excuses};
ghost use Rattle.numbering.specs.Placed.{place_by, total, with_bits};
ghost use Rattle.numbering.specs.Places.{IsApart, IsPlace, IsWithinNodes, count_of_bits, placed_driven, placed_inputs, placed_registers, placing};
ghost use Rattle.vlog_tree.specs.Meaning.Keys.{bit_count};
ghost use Rattle.vlog_tree.specs.Meaning.Ranges.{range_of};

use crate::Place;
use crate::counts::Counts;
use crate::kind::Kind;
use flat_net::FlatFault;
use nets::Nets;
use sqlite_items::Items;
use std::alloc::Global;
use std::marker::Model;

/// Where the bits of each name of a module stand. Contracts see it as the module and, for the top, its clock.
#[derive(Drop)]
pub struct ModulePlaces<'a> {
    nets: &'a Nets<'a>,
    clock: Option<&'a [u8]>,
    // one for each name of the table, in its order
    places: Items<Place>,
    counts: Counts,
}

impl<'a> Model for ModulePlaces<'a> {
    ghost use Rattle.std.specs.Coded.{codes};
    ghost use Rattle.std.specs.Option.{option_copied};
    ghost use Rattle.vlog_tree.specs.contracts.design.Module as tree;
    ghost use Rattle.numbering.specs.Placed.{ArePlaces};
    ghost use Rattle.numbering.specs.Places.{Placing, placing};

    ghost Value = { Placing };

    ghost coded = { Prim.hlevel (codes, tree.the_row.coded) };

    ghost view = { λ it. placing it.nets.now (option_copied it.clock) };

    ghost invariant = { λ it. ArePlaces (placing it.nets.now (option_copied it.clock)) it.places it.counts };
}

impl<'a> ModulePlaces<'a> {
    /// Takes time that grows with the number of names.
    pub fn of(
        alloc: Global,
        nets: &'a Nets<'a>,
        clock: Option<&'a [u8]>,
    ) -> Result<ModulePlaces<'a>, FlatFault>
        requires { IsApart nets.now }
        ensures value { IfOk result (λ places. places ≡ placing nets.now (option_copied clock.entry)) }
        ensures fault { IfErr result (Excuses (count_of_bits (placing nets.now (option_copied clock.entry)))) }
    {
        let mut places = Items::new(alloc);
        let mut counts = Counts::new();
        for i in 0..nets.len() {
            let (name, net) = nets.entry_at(i);
            let kind = Kind::of(name, net, clock);
            place_name(&mut places, &mut counts, kind, net.width())?;
        }
        Ok(ModulePlaces {
            nets,
            clock,
            places,
            counts,
        })
    }

    /// The place of a name. Nothing where it is neither declared nor implicit.
    pub fn place(&self, name: &[u8]) -> Option<Place>
        ensures found { is_some result ≡ is_some (range_of self.now.definition name.now) }
        ensures place { IfSome result (IsPlace self.now name.now) }
        ensures within { IfSome result (λ place. IsWithinNodes place (bit_count self.now.definition name.now)) }
    {
        match self.nets.index_of(name) {
            Some(index) => self.places.get(index).copied(),
            None => None,
        }
    }

    /// The names of the module.
    pub fn nets(&self) -> &'a Nets<'a>
        ensures { result.now ≡ self.now.definition }
    {
        self.nets
    }

    /// How many bits the inputs of the top have, without the clock.
    pub fn inputs(&self) -> usize
        ensures count { result ≡ length (placed_inputs self.now) }
        ensures within { result ≤ limit_of Nodes }
    {
        self.counts.inputs
    }

    /// How many bits the registers have.
    pub fn registers(&self) -> usize
        ensures count { result ≡ length (placed_registers self.now) }
        ensures within { result ≤ limit_of Nodes }
    {
        self.counts.registers
    }

    /// How many bits are driven.
    pub fn driven(&self) -> usize
        ensures count { result ≡ length (placed_driven self.now) }
        ensures within { result ≤ limit_of Nodes }
    {
        self.counts.driven
    }
}

// The place of one name more.
fn place_name(
    places: &mut Items<Place>,
    counts: &mut Counts,
    kind: Kind,
    width: usize,
) -> Result<(), FlatFault>
    requires { total counts.old ≤ limit_of Nodes }
    ensures place { OnOk result (places.new ≡ places.old ++ place_by counts.old kind ∷ []) }
    ensures counts { OnOk result (counts.new ≡ with_bits counts.old kind width) }
    ensures within { OnOk result (total counts.new ≤ limit_of Nodes) }
    ensures fault { IfErr result (Excuses (total (with_bits counts.old kind width))) }
{
    places.push(counts.place(kind))?;
    counts.add(kind, width)
}
