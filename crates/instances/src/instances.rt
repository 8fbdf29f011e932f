//! The instances of a design in pre-order.
ghost use Rattle.std.specs.Prelude.{◌≡◌, ◌<◌, ◌≤◌, ℕ, List, IfErr, IfOk, Some, length, option_map, slice_get};
ghost use Rattle.bm_base.specs.Size.{limit_of};
ghost use Rattle.bm_base.specs.declared.size.Size.TheVariants.{Instances as instances_size};
ghost use Rattle.instances.specs.Placing.{HasShapes, IsRefused, IsWithin};
ghost use Rattle.instances.specs.Shapes.{Shape, shapes_from, size_at};
ghost use Rattle.vlog_tree.specs.Meaning.Instances.{greatest_depth, module_named};
ghost use Rattle.vlog_tree.specs.declared.design.Module.{Module};

use crate::adding::add_instance;
use crate::graph::graph_of;
use crate::placed::Placed;
use flat_net::FlatFault;
use hierarchy::Hierarchy;
use sqlite_items::Items;
use std::alloc::Global;
use std::marker::Model;

// How deep instances stand, the top at depth 1.
const GREATEST_DEPTH: usize = 65;

/// All instances of a design in pre-order, the top first. At each place stand the module of the instance, by its place
/// among the modules of the design, and the size: how many instances stand in it, with itself. So the first instance
/// that stands in the one at place `i` is at `i + 1`, and the next one is `size_at(i + 1)` places farther.
#[derive(Debug, Drop)]
pub struct Instances {
    list: Items<Placed>,
}

impl Model for Instances {
    ghost use Rattle.std.specs.Prelude.{List};
    ghost use Rattle.instances.specs.declared.placed.Placed.{Placed as PlacedValue};

    ghost Value = { List PlacedValue };

    ghost view = { λ it. it.list };
}

impl Instances {
    /// The instances of a design, no more than the limit. It takes time and memory in step with their count and the
    /// length of the design.
    pub fn of(alloc: Global, hierarchy: &Hierarchy) -> Result<Instances, FlatFault>
        ensures shapes { let design = hierarchy.now.design in
            IfOk result (λ list. (m : Module) → module_named design hierarchy.now.top ≡ Some m
            → HasShapes design.modules list (shapes_from design greatest_depth m)) }
        ensures within { IfOk result (IsWithin (length hierarchy.now.design.modules)) }
        ensures limited { IfOk result (λ list. length list ≤ limit_of instances_size) }
        ensures refused { let design = hierarchy.now.design in
            IfErr result (λ fault. (m : Module) → module_named design hierarchy.now.top ≡ Some m
            → IsRefused (length (shapes_from design greatest_depth m)) fault) }
    {
        let graph = graph_of(alloc, hierarchy)?;
        let mut list = Items::new(alloc);
        add_instance(&graph, GREATEST_DEPTH, hierarchy.top(), &mut list)?;
        Ok(Instances { list })
    }

    /// How many instances there are.
    pub fn len(&self) -> usize
        ensures { result ≡ length self.now }
    {
        self.list.len()
    }

    /// The place of the module of the instance at a place.
    pub fn module_at(&self, place: usize) -> usize
        requires { place < length self.now }
        ensures placed { option_map (λ placed. placed.module) (slice_get self.now place) ≡ Some result }
        ensures within { (count : ℕ) → IsWithin count self.now → result < count }
        ensures definition { (modules : List Module) (shapes : List Shape) → HasShapes modules self.now shapes
            → slice_get modules result ≡ option_map (λ shape. shape.definition) (slice_get shapes place) }
    {
        self.list.as_slice()[place].module
    }

    /// How many instances stand in the one at a place, with itself.
    pub fn size_at(&self, place: usize) -> usize
        requires { place < length self.now }
        ensures placed { option_map (λ placed. placed.size) (slice_get self.now place) ≡ Some result }
        ensures size { (modules : List Module) (shapes : List Shape) → HasShapes modules self.now shapes
            → result ≡ size_at shapes place }
    {
        self.list.as_slice()[place].size
    }
}
