//! The instances of a design, and the places of its modules.
ghost use Rattle.std.specs.Prelude.{◌≡◌, ◌<◌, ◌≤◌, ◌+◌, ℕ, IfErr, IfOk, OnErr, OnOk, Some, length, slice_get};
ghost use Rattle.bm_base.specs.declared.size.Size.TheVariants.{Instances as instances_size, Nodes};
ghost use Rattle.bm_base.specs.Size.{limit_of};
ghost use Rattle.lowering.specs.Limits.{Excuses};
ghost use Rattle.instances.specs.Shapes.{shapes_from, size_at};
ghost use Rattle.numbering.specs.Numbering.{first_of_expressions};
ghost use Rattle.vlog_tree.specs.Meaning.Instances.{Instance, greatest_depth, instances, top_module};
ghost use Rattle.vlog_tree.specs.Meaning.Keys.{input_keys};
ghost use Rattle.vlog_tree.specs.declared.design.Module.{Module};
ghost use Rattle.frames.specs.Found.{placing_for};
ghost use Rattle.frames.specs.Numbered.{IsReady, Refuses, numbered, setting_with};

use crate::module_places::places_of;
use bm_base::Size;
use design_nets::DesignNets;
use flat_net::FlatFault;
use instances::Instances;
use numbering::ModulePlaces;
use sqlite_items::Items;
use std::alloc::Global;
use std::marker::Model;

/// The instances of a design, and where the bits of its modules stand. Contracts see it as the design with the names of
/// its top and of that module's clock.
#[derive(Drop)]
pub(crate) struct Ground<'a> {
    design: &'a DesignNets<'a>,
    clock: &'a [u8],
    instances: Instances,
    places: Items<Option<ModulePlaces<'a>>>,
}

impl<'a> Model for Ground<'a> {
    ghost use Rattle.std.specs.Coded.{codes};
    ghost use Rattle.vlog_tree.specs.contracts.design.Design as tree;
    ghost use Rattle.frames.specs.Found.{IsGround};
    ghost use Rattle.frames.specs.Numbered.{Numbered, numbered};

    ghost Value = { Numbered };

    ghost coded = { Prim.hlevel (codes, tree.the_row.coded) };

    ghost view = { λ it. numbered it.design.now it.clock.now };

    ghost invariant = { λ it. IsGround (numbered it.design.now it.clock.now) it.instances it.places };
}

impl<'a> Ground<'a> {
    pub(crate) fn of(
        alloc: Global,
        design: &'a DesignNets<'a>,
        clock: &'a [u8],
    ) -> Result<Ground<'a>, FlatFault>
        requires { IsReady (setting_with (numbered design.now clock.now)) }
        ensures value { IfOk result (λ it. it ≡ numbered design.now clock.now) }
        ensures limited { OnOk result
            (length (instances (setting_with (numbered design.now clock.now))) ≤ limit_of instances_size) }
        ensures refused { IfErr result (Refuses (setting_with (numbered design.now clock.now))) }
    {
        let instances = Instances::of(alloc, design.hierarchy())?;
        let places = places_of(alloc, design, clock)?;
        Ok(Ground {
            design,
            clock,
            instances,
            places,
        })
    }

    pub(crate) fn clock(&self) -> &'a [u8]
        ensures { result.now ≡ self.now.clock }
    {
        self.clock
    }

    pub(crate) fn len(&self) -> usize
        ensures count { result ≡ length (instances (setting_with self.now)) }
        ensures within { result ≤ limit_of instances_size }
    {
        self.instances.len()
    }

    /// How many instances stand in the one at a place, with itself.
    pub(crate) fn size_at(&self, place: usize) -> usize
        requires { place < length (instances (setting_with self.now)) }
        ensures within { place + result ≤ length (instances (setting_with self.now)) }
        ensures limited { place + result ≤ limit_of instances_size }
        ensures size { (m : Module) → top_module (setting_with self.now) ≡ Some m
            → result ≡ size_at (shapes_from self.now.design greatest_depth m) place }
    {
        self.instances.size_at(place)
    }

    /// Where the bits of the instance at a place stand among those of its module, unless these are too many.
    pub(crate) fn places_at(&self, place: usize) -> Result<&ModulePlaces<'a>, FlatFault>
        requires { place < length (instances (setting_with self.now)) }
        ensures places { IfOk result (λ places. (instance : Instance)
            → slice_get (instances (setting_with self.now)) place ≡ Some instance
            → places.now ≡ placing_for self.now instance) }
        ensures large { OnErr result (limit_of Nodes < first_of_expressions (setting_with self.now)) }
        ensures fault { IfErr result (Excuses (first_of_expressions (setting_with self.now))) }
    {
        let m = self.instances.module_at(place);
        match &self.places.as_slice()[m] {
            Some(places) => Ok(places),
            None => Err(FlatFault::TooLarge { what: Size::Nodes }),
        }
    }

    /// How many bits the inputs have.
    pub(crate) fn inputs(&self) -> Result<usize, FlatFault>
        requires { IsReady (setting_with self.now) }
        ensures count { IfOk result (λ count. count ≡ length (input_keys (setting_with self.now))) }
        ensures within { IfOk result (λ count. count ≤ limit_of Nodes) }
        ensures fault { IfErr result (Excuses (first_of_expressions (setting_with self.now))) }
    {
        match self.places_at(0) {
            Ok(places) => Ok(places.inputs()),
            Err(fault) => Err(fault),
        }
    }
}
