//! The instances of a design, and where the bits of each stand among all nodes.
ghost use Rattle.std.specs.Prelude.{◌≡◌, ◌<◌, ◌≤◌, ◌+◌, ℕ, IfErr, IfOk, Some, length, slice_get};
ghost use Rattle.bm_base.specs.declared.size.Size.TheVariants.{Instances as instances_size, Nodes};
ghost use Rattle.bm_base.specs.Size.{limit_of};
ghost use Rattle.instances.specs.Shapes.{shapes_from, size_at};
ghost use Rattle.numbering.specs.Frames.{driven_before, registers_before};
ghost use Rattle.numbering.specs.Numbering.{driven_keys, first_of_expressions, key_in, wires_in};
ghost use Rattle.numbering.specs.Numbers.{place_of};
ghost use Rattle.numbering.specs.Places.{placed_driven};
ghost use Rattle.std.specs.Option.{option_map};
ghost use Rattle.vlog_tree.specs.Meaning.Lefts.{Bit, number_in};
ghost use Rattle.vlog_tree.specs.Meaning.Instances.{Instance, greatest_depth, instances, top_module};
ghost use Rattle.vlog_tree.specs.Meaning.Keys.{input_keys, register_keys};
ghost use Rattle.vlog_tree.specs.Meaning.Uses.{Text};
ghost use Rattle.vlog_tree.specs.declared.design.Module.{Module};
ghost use Rattle.frames.specs.Framed.{wires_of};
ghost use Rattle.frames.specs.Numbered.{IsReady, Refuses, numbered, setting_with};
ghost use Rattle.frames.specs.Standing.{start_at};

use crate::frame::Frame;
use crate::ground::Ground;
use crate::start::Start;
use crate::starts::{Starts, starts_of};
use design_nets::DesignNets;
use flat_net::FlatFault;
use std::alloc::Global;
use std::marker::Model;

/// The instances of a design in pre-order, and where the bits of each stand among all nodes. Contracts see it as the
/// design with the names of its top and of that module's clock.
#[derive(Drop)]
pub struct Frames<'a> {
    ground: Ground<'a>,
    starts: Starts,
}

impl<'a> Model for Frames<'a> {
    ghost use Rattle.std.specs.Coded.{codes};
    ghost use Rattle.vlog_tree.specs.contracts.design.Design as tree;
    ghost use Rattle.frames.specs.Standing.{AreFrames};
    ghost use Rattle.frames.specs.Numbered.{Numbered};

    ghost Value = { Numbered };

    ghost coded = { Prim.hlevel (codes, tree.the_row.coded) };

    ghost view = { λ it. it.ground };

    ghost invariant = { λ it. AreFrames it.ground it.starts.inputs it.starts.list it.starts.end };
}

impl<'a> Frames<'a> {
    /// Takes time and memory in step with the count of the instances and the length of the design.
    pub fn of(
        alloc: Global,
        design: &'a DesignNets<'a>,
        clock: &'a [u8],
    ) -> Result<Frames<'a>, FlatFault>
        requires { IsReady (setting_with (numbered design.now clock.now)) }
        ensures value { IfOk result (λ it. it ≡ numbered design.now clock.now) }
        ensures refused { IfErr result (Refuses (setting_with (numbered design.now clock.now))) }
    {
        let ground = Ground::of(alloc, design, clock)?;
        let starts = starts_of(alloc, &ground)?;
        Ok(Frames { ground, starts })
    }

    /// The name of the top's clock.
    pub fn clock(&self) -> &'a [u8]
        ensures { result.now ≡ self.now.clock }
    {
        self.ground.clock()
    }

    /// How many instances there are.
    pub fn len(&self) -> usize
        ensures count { result ≡ length (instances (setting_with self.now)) }
        ensures within { result ≤ limit_of instances_size }
    {
        self.ground.len()
    }

    /// How many bits the inputs have.
    pub fn inputs(&self) -> usize
        ensures { result ≡ length (input_keys (setting_with self.now)) }
    {
        self.starts.inputs
    }

    pub fn registers(&self) -> usize
        ensures { result ≡ length (register_keys (setting_with self.now)) }
    {
        self.starts.end.registers
    }

    /// How many bits are driven.
    pub fn driven(&self) -> usize
        ensures { result ≡ length (driven_keys (setting_with self.now)) }
    {
        self.starts.end.driven
    }

    /// The number of the first node of an expression.
    pub fn first(&self) -> u32
        ensures first { result ≡ first_of_expressions (setting_with self.now) }
        ensures within { result ≤ limit_of Nodes }
    {
        (1 + self.starts.inputs + self.starts.end.registers + self.starts.end.driven) as u32
    }

    /// The place behind the instance at a place and all that stand in it.
    pub fn next_inner(&self, place: usize) -> usize
        requires { place < length (instances (setting_with self.now)) }
        ensures within { result ≤ length (instances (setting_with self.now)) }
        ensures size { (m : Module) → top_module (setting_with self.now) ≡ Some m
            → result ≡ place + size_at (shapes_from self.now.design greatest_depth m) place }
    {
        place + self.ground.size_at(place)
    }

    /// How many register bits the instances before the one at a place have.
    pub fn registers_before(&self, place: usize) -> usize
        requires { place < length (instances (setting_with self.now)) }
        ensures { result ≡ registers_before (instances (setting_with self.now)) place }
    {
        self.start(place).registers
    }

    /// How many driven bits they have.
    pub fn driven_before(&self, place: usize) -> usize
        requires { place < length (instances (setting_with self.now)) }
        ensures { result ≡ driven_before (instances (setting_with self.now)) place }
    {
        self.start(place).driven
    }

    // Where the bits of the instance at a place start.
    fn start(&self, place: usize) -> Start
        requires { place < length (instances (setting_with self.now)) }
        ensures { result ≡ start_at (instances (setting_with self.now)) place }
    {
        self.starts.list.as_slice()[place]
    }

    /// The names of the instance at a place, with the edges of their bits.
    pub fn at(&self, place: usize) -> Frame<'_>
        requires { place < length (instances (setting_with self.now)) }
        ensures definition { (instance : Instance) → slice_get (instances (setting_with self.now)) place ≡ Some instance
            → result.placing.definition ≡ instance.definition }
        ensures wires { (instance : Instance) → slice_get (instances (setting_with self.now)) place ≡ Some instance
            → (name : Text) (bit : ℕ) → wires_of result name bit ≡ wires_in (setting_with self.now) instance.path name bit }
        ensures driven { (instance : Instance) → slice_get (instances (setting_with self.now)) place ≡ Some instance
            → (bit : Bit) → place_of (driven_keys (setting_with self.now)) (key_in instance.path bit)
            ≡ option_map (λ number. result.first_driven + number) (number_in (placed_driven result.placing) bit) }
    {
        let start = self.starts.list.as_slice()[place];
        match self.ground.places_at(place) {
            Ok(places) => Frame::of(
                places,
                start.registers,
                start.driven,
                self.starts.inputs,
                self.starts.end.registers,
            ),
            Err(_) => unreachable!(),
        }
    }
}
