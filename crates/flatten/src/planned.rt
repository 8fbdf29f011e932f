//! The flat netlist of a design, by its plan.
ghost use Rattle.std.specs.Prelude.{◌≡◌, ℕ, IfErr, IfOk, List, None, OnOk};
ghost use Rattle.flat_design.specs.Flat.{flat};
ghost use Rattle.flat_design.specs.Next.{HasNext};
ghost use Rattle.flat_design.specs.Sizes.{too_large};
ghost use Rattle.flat_design.specs.Values.{HasValues};
ghost use Rattle.flat_net.specs.declared.fault.FlatFault.TheVariants.{Memory};
ghost use Rattle.frames.specs.Numbered.{numbered};
ghost use Rattle.hierarchy.specs.Faults.{refusal_of};
ghost use Rattle.vlog_tree.specs.Meaning.Setting.{Setting};
ghost use Rattle.vlog_tree.specs.Spelling.{Spells};
ghost use Rattle.flatten.specs.Planned.{IsPlanned, Refuses};
ghost use Rattle.flatten.specs.Ready.{IsReadyBy, setting_by};

use crate::parts::flat_of;
use design_nets::DesignNets;
use elab::Plan;
use flat_net::{FlatFault, FlatNet};
use frames::Frames;
use hierarchy::{Hierarchy, HierarchyFault, hierarchy_of};
use std::alloc::Global;
use trace_rows::Labels;
use vlog_tree::Design;

/// The flat netlist of a design that some bytes spell and that keeps the rules, by its plan. Takes time that grows with the
/// lengths of the modules of all instances and with the nodes, and stops where these or the instances pass their limit.
pub fn flatten(alloc: Global, design: &Design, plan: &Plan) -> Result<FlatNet, FlatFault>
    requires spelled { (bytes : List ℕ) × Spells bytes design.now }
    requires planned { (setting : Setting) × IsPlanned setting design.now plan.now }
    ensures flat { IfOk result (λ net. (setting : Setting) → IsPlanned setting design.now plan.now → net ≡ flat setting) }
    ensures within { OnOk result ((setting : Setting) → IsPlanned setting design.now plan.now → too_large setting ≡ None) }
    ensures values { IfOk result (λ net. (setting : Setting) → IsPlanned setting design.now plan.now
        → HasValues setting net) }
    ensures next { IfOk result (λ net. (setting : Setting) → IsPlanned setting design.now plan.now → HasNext setting net) }
    ensures refused { IfErr result (λ fault. (setting : Setting) → IsPlanned setting design.now plan.now
        → Refuses setting fault) }
{
    design_laws::laws::grammar_gives();
    rule_laws::laws::ready();
    flat_design::laws::values();
    flat_design::laws::next();
    match hierarchy_of(alloc, design, &plan.labels.top) {
        Ok(hierarchy) => flat_of_modules(alloc, hierarchy, &plan.labels),
        Err(fault) => Err(memory_of(fault)),
    }
}

// The same of a design whose modules are known by name.
fn flat_of_modules(
    alloc: Global,
    hierarchy: Hierarchy<'_>,
    labels: &Labels,
) -> Result<FlatNet, FlatFault>
    requires { IsReadyBy (numbered hierarchy labels.now.clock) labels.now.check }
    ensures flat { IfOk result (λ net.
        net ≡ flat (setting_by (numbered hierarchy.entry labels.now.clock) labels.now.check)) }
    ensures within { OnOk result
        (too_large (setting_by (numbered hierarchy.entry labels.now.clock) labels.now.check) ≡ None) }
    ensures refused { IfErr result
        (Refuses (setting_by (numbered hierarchy.entry labels.now.clock) labels.now.check)) }
{
    let design = DesignNets::of(alloc, hierarchy)?;
    flat_of_nets(alloc, &design, labels)
}

// The same of a design whose modules have their tables.
fn flat_of_nets(
    alloc: Global,
    design: &DesignNets<'_>,
    labels: &Labels,
) -> Result<FlatNet, FlatFault>
    requires { IsReadyBy (numbered design.now labels.now.clock) labels.now.check }
    ensures flat { IfOk result (λ net.
        net ≡ flat (setting_by (numbered design.now labels.now.clock) labels.now.check)) }
    ensures within { OnOk result
        (too_large (setting_by (numbered design.now labels.now.clock) labels.now.check) ≡ None) }
    ensures refused { IfErr result
        (Refuses (setting_by (numbered design.now labels.now.clock) labels.now.check)) }
{
    let frames = Frames::of(alloc, design, labels.clock.bytes())?;
    flat_of(alloc, &frames, labels.check.bytes())
}

// A fault that says no rule is want of memory.
fn memory_of(fault: HierarchyFault<'_>) -> FlatFault
    requires { refusal_of fault ≡ None }
    ensures { result ≡ Memory }
{
    match fault {
        HierarchyFault::Memory => FlatFault::Memory,
        HierarchyFault::RepeatedModule(_) => unreachable!(),
        HierarchyFault::NoTop(_) => unreachable!(),
        HierarchyFault::BadInstance(_) => unreachable!(),
    }
}
