//! The modules of a design by name and by reach.
ghost use Rattle.std.specs.Prelude.{◌≡◌, ◌<◌, ◌⊎◌, [], IfErr, IfOk, IfSome, None, OnOk, Some, length, option_and_then, slice_get};
ghost use Rattle.std.specs.Option.{option_map};
ghost use Rattle.hierarchy.specs.Failures.{earliest, failure, first_refusal};
ghost use Rattle.hierarchy.specs.Faults.{refusal_of};
ghost use Rattle.hierarchy.specs.Graph.{AreDistinct, bad_items_from, name_at, place_among, rooted_at};
ghost use Rattle.hierarchy.specs.Places.{place_in};
ghost use Rattle.hierarchy.specs.Reach.{reaches};
ghost use Rattle.hierarchy.specs.Rules.{module_rules, repeated_after};
ghost use Rattle.hierarchy.specs.declared.fault.HierarchyFault.TheVariants.{Memory};
ghost use Rattle.vlog_tree.specs.Meaning.Instances.{module_named};

use crate::failure::Failure;
use crate::fault::HierarchyFault;
use crate::graph::graph_of;
use crate::instances::first_bad;
use crate::places::Places;
use crate::reach::Reach;
use crate::repeated::numbered;
use bm_base::Name;
use std::alloc::Global;
use std::marker::Model;
use vlog_tree::{Design, Module};

/// The modules of a design, each with a name of its own, by name and by reach from the top.
#[derive(Drop)]
pub struct Hierarchy<'a> {
    design: &'a Design,
    top: usize,
    places: Places<'a>,
    reach: Reach,
}

impl<'a> Model for Hierarchy<'a> {
    ghost use Rattle.hierarchy.specs.Graph.{name_at};
    ghost use Rattle.hierarchy.specs.Indexed.{IsIndexed, Topped};
    ghost use Rattle.hierarchy.specs.Places.{place_in};
    ghost use Rattle.std.specs.Coded.{codes};
    ghost use Rattle.vlog_tree.specs.contracts.design.Design as tree;

    ghost Value = { Topped };

    ghost coded = { Prim.hlevel (codes, tree.the_row.coded) };

    ghost view = { λ it. record { design = it.design.now; top = name_at it.design.now.modules it.top } };

    ghost invariant = { λ it. IsIndexed it.design.now.modules it.top (place_in it.places) it.reach };
}

impl<'a> Hierarchy<'a> {
    /// The place of the top among the modules.
    pub fn top(&self) -> usize
        ensures within { result < length self.now.design.modules }
        ensures place { place_among self.now.design.modules self.now.top ≡ Some result }
        ensures top { slice_get self.now.design.modules result ≡ module_named self.now.design self.now.top }
    {
        self.top
    }

    /// The place of the module of a name, which no other module has.
    pub fn place_of(&self, name: &[u8]) -> Option<usize>
        ensures distinct { AreDistinct self.now.design.modules }
        ensures within { IfSome result (λ place. place < length self.now.design.modules) }
        ensures place { result ≡ place_among self.now.design.modules name.now }
        ensures named { option_and_then (slice_get self.now.design.modules) result ≡ module_named self.now.design name.now }
    {
        self.places.get(name)
    }

    /// The modules in source order, those that are not reached among them.
    pub fn modules(&self) -> &'a [Module]
        ensures { result.now ≡ self.now.design.modules }
    {
        self.design.modules.as_slice()
    }

    /// The module of a name.
    pub fn module_named(&self, name: &[u8]) -> Option<&'a Module>
        ensures { option_map (λ m. m.now) result ≡ module_named self.now.design name.now }
    {
        let modules = self.design.modules.as_slice();
        match self.place_of(name) {
            Some(place) => Some(&modules[place]),
            None => None,
        }
    }

    /// Whether the module at a place is reached from the top.
    pub fn is_reached(&self, place: usize) -> bool
        requires { place < length self.now.design.modules }
        ensures { result ≡ reaches self.now.design self.now.top (name_at self.now.design.modules place) }
    {
        self.reach.is_reached(place)
    }
}

/// The modules of a design by name and by reach, or the first rule on them that fails.
pub fn hierarchy_of<'a>(
    alloc: Global,
    design: &'a Design,
    top: &'a Name,
) -> Result<Hierarchy<'a>, HierarchyFault<'a>>
    ensures of_design { IfOk result (λ hierarchy. hierarchy ≡ record { design = design.now; top = top.now }) }
    ensures distinct { OnOk result (AreDistinct design.now.modules) }
    ensures accepted { OnOk result (first_refusal (module_rules design.now top.now) ≡ None) }
    ensures refused { IfErr result (λ fault. (fault ≡ Memory)
        ⊎ (first_refusal (module_rules design.now top.now) ≡ refusal_of fault)) }
{
    let modules = design.modules.as_slice();
    let places = distinct(alloc, modules)?;
    let place = top_place(&places, top)?;
    let reach = reach_of(alloc, &places, modules, place)?;
    Ok(Hierarchy {
        design,
        top: place,
        places,
        reach,
    })
}

// The places of modules no two of which have one name.
fn distinct<'a>(alloc: Global, modules: &'a [Module]) -> Result<Places<'a>, HierarchyFault<'a>>
    ensures places { IfOk result (λ places. place_in places ≡ place_among modules.now) }
    ensures accepted { OnOk result (earliest (repeated_after [] modules.now) ≡ None) }
    ensures refused { IfErr result (λ fault. (fault ≡ Memory)
        ⊎ (option_map (λ failure. (1, failure)) (earliest (repeated_after [] modules.now)) ≡ refusal_of fault)) }
{
    let (places, repeated) = numbered(alloc, modules)?;
    match repeated.first() {
        Some(failure) => Err(HierarchyFault::RepeatedModule(failure)),
        None => Ok(places),
    }
}

// The place of the top.
fn top_place<'a>(places: &Places<'a>, top: &'a Name) -> Result<usize, HierarchyFault<'a>>
    ensures place { IfOk result (λ place. place_in places.now top.now ≡ Some place) }
    ensures refused { IfErr result (λ fault. (place_in places.now top.now ≡ None)
        × (Some (2, failure 0 [] top.now) ≡ refusal_of fault)) }
{
    match places.get(top.bytes()) {
        Some(place) => Ok(place),
        None => Err(HierarchyFault::NoTop(Failure {
            at: 0,
            module_name: b"",
            name: top.bytes(),
        })),
    }
}

// How the modules are reached, where no instance in a reached one is refused.
fn reach_of<'a>(
    alloc: Global,
    places: &Places,
    modules: &'a [Module],
    top: usize,
) -> Result<Reach, HierarchyFault<'a>>
    requires places { place_in places.now ≡ place_among modules.now }
    requires top { top < length modules.now }
    ensures reach { IfOk result (λ reach. reach ≡ rooted_at modules.now top) }
    ensures accepted { OnOk result
        (earliest (bad_items_from (rooted_at modules.now top) (place_among modules.now) 0 modules.now) ≡ None) }
    ensures refused { IfErr result (λ fault. (fault ≡ Memory)
        ⊎ (option_map (λ failure. (3, failure))
        (earliest (bad_items_from (rooted_at modules.now top) (place_among modules.now) 0 modules.now))
        ≡ refusal_of fault)) }
{
    let graph = graph_of(alloc, places, modules)?;
    let reach = Reach::new(alloc, graph, top)?;
    let found = first_bad(alloc, places, &reach, modules)?;
    match found.first() {
        Some(failure) => Err(HierarchyFault::BadInstance(failure)),
        None => Ok(reach),
    }
}
