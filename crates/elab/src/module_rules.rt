//! The rules on single modules, and where each fails first in those that are reached.
ghost use Rattle.std.specs.Prelude.{◌≡◌, ◌<◌, [], ◌∷◌, IfOk, OnOk, filter, flat_map, fold, length};
ghost use Rattle.hierarchy.specs.Failures.{earlier, earliest};
ghost use Rattle.hierarchy.specs.Graph.{name_at};
ghost use Rattle.elab.specs.ModuleRules.{failures_of};
ghost use Rattle.elab.specs.Refusals.{in_reached, is_reached};

use bm_base::NoMemory;
use design_nets::DesignNets;
use driver_rules::note_double_drivers;
use hierarchy::Earliest;
use name_rules::{note_bad_connections, note_bad_names, note_unknown_names};
use nets::Nets;
use std::alloc::Global;
use target_rules::note_bad_targets;
use width_rules::{note_bad_terminals, note_bad_widths};

/// A rule that speaks of one module at a time.
#[derive(Clone, Copy, Debug, PartialEq, Eq)]
pub(crate) enum ModuleRule {
    /// Declarations, headers, and names that two things share.
    BadNames,
    /// Names that are neither declared nor implicit.
    UnknownNames,
    /// Connections to ports.
    BadConnections,
    /// Selects, and expressions that are too wide.
    BadWidths,
    /// Gate terminals of more than one bit.
    BadTerminals,
    /// What is assigned.
    BadTargets,
    /// Bits with two drivers.
    DoubleDrivers,
}

/// Where the rule fails first in the modules that are reached.
pub(crate) fn first_failure<'a>(
    alloc: Global,
    design: &DesignNets<'a>,
    rule: ModuleRule,
) -> Result<Earliest<'a>, NoMemory>
    ensures { IfOk result (λ found. found
        ≡ earliest (in_reached design.now.design design.now.top (failures_of rule design.now.design))) }
{
    let mut found = Earliest::new();
    for (place, nets) in design.modules().iter().enumerate() {
        note_if_reached(alloc, design, place, nets, rule, &mut found)?;
    }
    Ok(found)
}

// Notes where the rule fails in the module at this place, if that is reached.
fn note_if_reached<'a>(
    alloc: Global,
    design: &DesignNets<'a>,
    place: usize,
    nets: &Nets<'a>,
    rule: ModuleRule,
    found: &mut Earliest<'a>,
) -> Result<(), NoMemory>
    requires within { place < length design.now.design.modules }
    requires name { name_at design.now.design.modules place ≡ nets.now.name }
    ensures { OnOk result (found.new ≡ fold earlier found.old (flat_map (failures_of rule design.now.design)
        (filter (is_reached design.now.design design.now.top) (nets.now ∷ [])))) }
{
    if design.is_reached(place) {
        note(alloc, design, nets, rule, found)?;
    }
    Ok(())
}

fn note<'a>(
    alloc: Global,
    design: &DesignNets<'a>,
    nets: &Nets<'a>,
    rule: ModuleRule,
    found: &mut Earliest<'a>,
) -> Result<(), NoMemory>
    ensures { OnOk result (found.new ≡ fold earlier found.old (failures_of rule design.now.design nets.now)) }
{
    match rule {
        ModuleRule::BadNames => note_bad_names(alloc, nets, found)?,
        ModuleRule::UnknownNames => note_unknown_names(nets, found),
        ModuleRule::BadConnections => {
            note_bad_connections(alloc, design.hierarchy(), nets.module(), found)?
        }
        ModuleRule::BadWidths => note_bad_widths(nets, found),
        ModuleRule::BadTerminals => note_bad_terminals(nets, found),
        ModuleRule::BadTargets => note_bad_targets(design, nets, found),
        ModuleRule::DoubleDrivers => note_double_drivers(alloc, design, nets, found)?,
    }
    Ok(())
}
