//! The bit for which a node stands, by the plan of its design.
ghost use Rattle.std.specs.Prelude.{◌≡◌, ℕ, IfOk, List, None};
ghost use Rattle.flat_design.specs.Sizes.{too_large};
ghost use Rattle.flat_net.specs.declared.fault.FlatFault.TheVariants.{Memory};
ghost use Rattle.flatten.specs.Planned.{IsPlanned};
ghost use Rattle.flatten.specs.Ready.{IsReadyBy, setting_by};
ghost use Rattle.frames.specs.Numbered.{numbered, setting_with};
ghost use Rattle.numbering.specs.Numbering.{key_at};
ghost use Rattle.vlog_tree.specs.Meaning.Setting.{Setting};
ghost use Rattle.vlog_tree.specs.Spelling.{Spells};

use crate::key::key_at;
use bm_base::NoMemory;
use design_nets::DesignNets;
use elab::Plan;
use flat_net::FlatFault;
use frames::Frames;
use hierarchy::{Hierarchy, hierarchy_of};
use std::alloc::Global;
use trace_rows::Labels;
use vlog_tree::{Design, Key};

/// The bit for which a node of the design's flat netlist stands: the names of the instances on the way to it, its name,
/// and its position from the right end. None exactly where the node stands for none.
pub fn key_of(
    alloc: Global,
    design: &Design,
    plan: &Plan,
    node: u32,
) -> Result<Option<Key>, NoMemory>
    requires spelled { (bytes : List ℕ) × Spells bytes design.now }
    requires planned { (setting : Setting) × IsPlanned setting design.now plan.now }
    requires within { (setting : Setting) → IsPlanned setting design.now plan.now → too_large setting ≡ None }
    ensures { IfOk result (λ key. (setting : Setting) → IsPlanned setting design.now plan.now → key ≡ key_at setting node) }
{
    design_laws::laws::grammar_gives();
    rule_laws::laws::ready();
    match hierarchy_of(alloc, design, &plan.labels.top) {
        Ok(hierarchy) => key_of_modules(alloc, hierarchy, &plan.labels, node),
        // The rules on modules are kept.
        Err(_) => Err(NoMemory),
    }
}

// The same of a design whose modules are known by name.
fn key_of_modules(
    alloc: Global,
    hierarchy: Hierarchy<'_>,
    labels: &Labels,
    node: u32,
) -> Result<Option<Key>, NoMemory>
    requires ready { IsReadyBy (numbered hierarchy labels.now.clock) labels.now.check }
    requires within { too_large (setting_by (numbered hierarchy labels.now.clock) labels.now.check) ≡ None }
    ensures { IfOk result (λ key. key ≡ key_at (setting_with (numbered hierarchy.entry labels.now.clock)) node) }
{
    let design = DesignNets::of(alloc, hierarchy)?;
    key_of_nets(alloc, &design, labels, node)
}

// The same of a design whose modules have their tables.
fn key_of_nets(
    alloc: Global,
    design: &DesignNets<'_>,
    labels: &Labels,
    node: u32,
) -> Result<Option<Key>, NoMemory>
    requires ready { IsReadyBy (numbered design.now labels.now.clock) labels.now.check }
    requires within { too_large (setting_by (numbered design.now labels.now.clock) labels.now.check) ≡ None }
    ensures { IfOk result (λ key. key ≡ key_at (setting_with (numbered design.now labels.now.clock)) node) }
{
    match Frames::of(alloc, design, labels.clock.bytes()) {
        Ok(frames) => key_at(alloc, &frames, node),
        Err(fault) => Err(memory_of(fault)),
    }
}

// No size passes its limit.
fn memory_of(fault: FlatFault) -> NoMemory
    requires { fault ≡ Memory }
{
    match fault {
        FlatFault::Memory => NoMemory,
        FlatFault::TooLarge { .. } => unreachable!(),
    }
}
