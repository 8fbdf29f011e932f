//! The rules on a design in their order.
ghost use Rattle.std.specs.Prelude.{◌≡◌, ◌++◌, ◌⊎◌, IfErr, IfOk, IsSomeAnd, None, OnOk};
ghost use Rattle.clock_rules.specs.Clocks.{bad_clocks, clock_as_data};
ghost use Rattle.hierarchy.specs.Failures.{earliest, first_refusal};
ghost use Rattle.hierarchy.specs.Faults.{refusal_of};
ghost use Rattle.hierarchy.specs.Shown.{shown};
ghost use Rattle.elab.specs.Plans.{IsPlan};
ghost use Rattle.elab.specs.Refusals.{KeepsRules, Refuses, Says, inner_rules, port_rules, refuses_at, rules};
ghost use Rattle.elab.specs.Settings.{clocked_of, setting_of};
ghost use Rattle.elab.specs.declared.fault.ElabFault.TheVariants.{Memory};

use crate::fault::ElabFault;
use crate::module_rules::{ModuleRule, first_failure};
use crate::names::Names;
use crate::plan::Plan;
use crate::ports::bad_setting;
use bm_base::{Name, NoMemory};
use clock_rules::{note_bad_clocks, note_clock_as_data};
use design_nets::DesignNets;
use hierarchy::{Earliest, Failure, Hierarchy, HierarchyFault, hierarchy_of};
use std::alloc::Global;
use vlog_tree::Design;

/// What the rest of the work needs of a design that keeps the rules, or the first rule that it breaks, at its first
/// place. Takes time that grows with the size of the design.
#[tactic(auto, unfolding(crate::specs::Refusals::rules))]
pub fn elaborate(alloc: Global, design: &Design, names: &Names) -> Result<Plan, ElabFault>
    ensures kept { OnOk result (KeepsRules (setting_of design.now names.now)) }
    ensures plan { IfOk result (IsPlan (setting_of design.now names.now)) }
    ensures refused { IfErr result (Refuses (rules (setting_of design.now names.now))) }
{
    match hierarchy_of(alloc, design, &names.top) {
        Ok(hierarchy) => elaborate_modules(alloc, hierarchy, names),
        Err(fault) => Err(hierarchy_fault(alloc, fault)),
    }
}

// The same of a design whose modules and instances keep the rules on them.
fn elaborate_modules(alloc: Global, hierarchy: Hierarchy, names: &Names) -> Result<Plan, ElabFault>
    requires { hierarchy.top ≡ names.now.top }
    ensures kept { OnOk result (first_refusal (inner_rules hierarchy.entry.design hierarchy.entry.top
        ++ port_rules (setting_of hierarchy.entry.design names.now)) ≡ None) }
    ensures plan { IfOk result (IsPlan (setting_of hierarchy.entry.design names.now)) }
    ensures refused { IfErr result (Refuses (inner_rules hierarchy.entry.design hierarchy.entry.top
        ++ port_rules (setting_of hierarchy.entry.design names.now))) }
{
    let design = DesignNets::of(alloc, hierarchy)?;
    plan_of(alloc, &design, names)
}

fn plan_of(alloc: Global, design: &DesignNets, names: &Names) -> Result<Plan, ElabFault>
    requires { design.now.top ≡ names.now.top }
    ensures kept { OnOk result (first_refusal (inner_rules design.now.design design.now.top
        ++ port_rules (setting_of design.now.design names.now)) ≡ None) }
    ensures plan { IfOk result (IsPlan (setting_of design.now.design names.now)) }
    ensures refused { IfErr result (Refuses (inner_rules design.now.design design.now.top
        ++ port_rules (setting_of design.now.design names.now))) }
{
    keeps_inner_rules(alloc, design)?;
    keeps_port_rules(alloc, design, names)?;
    Ok(Plan::of(alloc, design, names)?)
}

// What refuses the modules and their instances.
fn hierarchy_fault(alloc: Global, fault: HierarchyFault) -> ElabFault
    ensures { (result ≡ Memory) ⊎ IsSomeAnd (refusal_of fault.entry) (Says result) }
{
    match fault {
        HierarchyFault::RepeatedModule(failure) => rule_fault(alloc, 1, failure),
        HierarchyFault::NoTop(failure) => rule_fault(alloc, 2, failure),
        HierarchyFault::BadInstance(failure) => rule_fault(alloc, 3, failure),
        HierarchyFault::Memory => ElabFault::Memory,
    }
}

fn rule_fault(alloc: Global, rule: u8, failure: Failure) -> ElabFault
    ensures { (result ≡ Memory) ⊎ Says result (rule, shown failure.entry) }
{
    match names_of(alloc, failure) {
        Ok((module_name, name)) => ElabFault::Rule {
            rule,
            module_name,
            name,
        },
        Err(_) => ElabFault::Memory,
    }
}

fn names_of(alloc: Global, failure: Failure) -> Result<(Name, Name), NoMemory>
    ensures { IfOk result (λ names. (names.0 ≡ failure.entry.module_name.now) × (names.1 ≡ failure.entry.name.now)) }
{
    let module_name = Name::new(alloc, failure.module_name)?;
    let name = Name::new(alloc, failure.name)?;
    Ok((module_name, name))
}

// The rules on single modules, E4 to E10.
fn keeps_inner_rules(alloc: Global, design: &DesignNets) -> Result<(), ElabFault>
    ensures kept { OnOk result (first_refusal (inner_rules design.now.design design.now.top) ≡ None) }
    ensures refused { IfErr result (Refuses (inner_rules design.now.design design.now.top)) }
{
    let names = first_failure(alloc, design, ModuleRule::BadNames)?;
    keeps(alloc, 4, names)?;
    let uses = first_failure(alloc, design, ModuleRule::UnknownNames)?;
    keeps(alloc, 5, uses)?;
    let connections = first_failure(alloc, design, ModuleRule::BadConnections)?;
    keeps(alloc, 6, connections)?;
    let widths = first_failure(alloc, design, ModuleRule::BadWidths)?;
    keeps(alloc, 7, widths)?;
    let terminals = first_failure(alloc, design, ModuleRule::BadTerminals)?;
    keeps(alloc, 8, terminals)?;
    let targets = first_failure(alloc, design, ModuleRule::BadTargets)?;
    keeps(alloc, 9, targets)?;
    let drivers = first_failure(alloc, design, ModuleRule::DoubleDrivers)?;
    keeps(alloc, 10, drivers)
}

// The rules on the top's ports and on clocks, E11 to E13.
fn keeps_port_rules(alloc: Global, design: &DesignNets, names: &Names) -> Result<(), ElabFault>
    requires { design.now.top ≡ names.now.top }
    ensures kept { OnOk result (first_refusal (port_rules (setting_of design.now.design names.now)) ≡ None) }
    ensures refused { IfErr result (Refuses (port_rules (setting_of design.now.design names.now))) }
{
    keeps(alloc, 11, bad_setting(design, names))?;
    keeps(alloc, 12, bad_clocks(alloc, design, names)?)?;
    keeps(alloc, 13, clock_as_data(alloc, design, names)?)
}

fn bad_clocks<'a>(
    alloc: Global,
    design: &DesignNets<'a>,
    names: &Names,
) -> Result<Earliest<'a>, NoMemory>
    requires { design.now.top ≡ names.now.top }
    ensures { IfOk result (λ found. found ≡ earliest (bad_clocks (clocked_of (setting_of design.now.design names.now)))) }
{
    let mut found = Earliest::new();
    note_bad_clocks(alloc, design, names.clock.bytes(), &mut found)?;
    Ok(found)
}

fn clock_as_data<'a>(
    alloc: Global,
    design: &DesignNets<'a>,
    names: &Names,
) -> Result<Earliest<'a>, NoMemory>
    requires { design.now.top ≡ names.now.top }
    ensures { IfOk result (λ found. found ≡ earliest (clock_as_data (clocked_of (setting_of design.now.design names.now)))) }
{
    let mut found = Earliest::new();
    note_clock_as_data(alloc, design, names.clock.bytes(), &mut found)?;
    Ok(found)
}

// Whether a rule is kept, by what was found of it.
fn keeps(alloc: Global, rule: u8, found: Earliest) -> Result<(), ElabFault>
    ensures kept { OnOk result (found.entry ≡ None) }
    ensures refused { IfErr result (refuses_at rule found.entry) }
{
    match found.first() {
        Some(failure) => Err(rule_fault(alloc, rule, failure)),
        None => Ok(()),
    }
}
