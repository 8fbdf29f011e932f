//! The machine of a design that keeps the rules, by its plan.
ghost use Rattle.std.specs.Prelude.{◌≡◌, ℕ, IfErr, IfOk, List, None};
ghost use Rattle.flat_design.specs.Flat.{flat};
ghost use Rattle.flat_design.specs.Sizes.{too_large};
ghost use Rattle.flatten.specs.Planned.{IsPlanned};
ghost use Rattle.net_order.specs.Faults.{IsLeastLoop};
ghost use Rattle.vlog_tree.specs.Meaning.Setting.{Setting};
ghost use Rattle.vlog_tree.specs.Spelling.{Spells};
ghost use Rattle.netlists.specs.Stops.{IsMade, StopsMaking};

use crate::NetlistFault;
use elab::Plan;
use flatten::flatten;
use keys::printed_key;
use levelise::{LevelFault, Levelled, levelise};
use std::alloc::Global;
use trace_rows::Labels;
use vlog_tree::Design;

/// A netlist that can be run.
#[derive(Drop)]
pub struct Netlist {
    /// Its machine.
    pub level: Levelled,
    /// What the bits of a trace's rows are.
    pub labels: Labels,
}

/// The machine of a design that some bytes spell and that keeps the rules, by its plan, with the labels of its traces.
pub(crate) fn netlist_of(
    alloc: Global,
    design: &Design,
    plan: Plan,
) -> Result<Netlist, NetlistFault>
    requires spelled { (bytes : List ℕ) × Spells bytes design.now }
    requires planned { (setting : Setting) × IsPlanned setting design.now plan }
    ensures made { IfOk result (λ netlist. (setting : Setting) → IsPlanned setting design.now plan → IsMade setting netlist) }
    ensures stops { IfErr result (λ fault. (setting : Setting) → IsPlanned setting design.now plan
        → StopsMaking setting fault) }
{
    let net = flatten(alloc, design, &plan)?;
    match levelise(alloc, net, plan.setup) {
        Ok(level) => Ok(Netlist {
            level,
            labels: plan.labels,
        }),
        Err(LevelFault::Loop { node }) => Err(loop_fault(alloc, design, &plan, node)),
        Err(LevelFault::Memory) => Err(NetlistFault::Memory),
    }
}

// The fault that names the bit for which the least node that reads itself stands.
fn loop_fault(alloc: Global, design: &Design, plan: &Plan, node: u32) -> NetlistFault
    requires spelled { (bytes : List ℕ) × Spells bytes design.now }
    requires planned { (setting : Setting) × IsPlanned setting design.now plan.now }
    requires within { (setting : Setting) → IsPlanned setting design.now plan.now → too_large setting ≡ None }
    requires least { (setting : Setting) → IsPlanned setting design.now plan.now → IsLeastLoop (flat setting).nodes node }
    ensures { (setting : Setting) → IsPlanned setting design.now plan.now → StopsMaking setting result }
{
    loop_laws::laws::loop_free();
    match printed_key(alloc, design, plan, node) {
        Ok(Some(key)) => NetlistFault::Loop { key },
        Ok(None) => unreachable!(),
        Err(_) => NetlistFault::Memory,
    }
}
