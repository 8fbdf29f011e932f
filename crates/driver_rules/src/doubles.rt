//! Bits that have a second driver or stand twice in one left side.
ghost use Rattle.std.specs.Prelude.{◌≡◌, ◌∷◌, ◌++◌, ◌||◌, [], List, OnOk, fold};
ghost use Rattle.hierarchy.specs.Failures.{earlier};
ghost use Rattle.vlog_tree.specs.declared.design.Module.{Module as Tree};
ghost use Rattle.driver_rules.specs.Doubles.{Assigned, doubles_after, drivings};
ghost use Rattle.driver_rules.specs.Driven.{Has, assigned_by, doubles_in_group, doubles_in_groups, overlaps_any};
ghost use Rattle.driver_rules.specs.Groups.{GroupsAreNumbered, groups_of, groups_shown, joined};
ghost use Rattle.driver_rules.specs.Runs.{kept_at};
ghost use Rattle.driver_rules.specs.Selects.{AreNumbered, IsRunOf, assigned, shown};

use crate::bit_set::BitSet;
use crate::groups::groups_of;
use crate::select::Select;
use bm_base::NoMemory;
use design_nets::DesignNets;
use hierarchy::{Earliest, note_if};
use nets::Nets;
use sqlite_items::Items;
use std::alloc::Global;
use vlog_tree::Item;

/// Notes each select that has a bit of one before it, where the two are not in different left sides of one `always`.
pub(crate) fn note_doubles<'a>(
    alloc: Global,
    design: &DesignNets<'a>,
    nets: &Nets<'a>,
    found: &mut Earliest<'a>,
) -> Result<(), NoMemory>
    ensures { OnOk result (found.new
        ≡ fold earlier found.old (doubles_after nets.now [] (drivings design.now.design nets.now))) }
{
    let m = nets.module();
    let mut driven = BitSet::new(alloc);
    for item in m.items.as_slice() {
        note_in_item(alloc, design, nets, item, &mut driven, found)?;
    }
    Ok(())
}

// Notes what is wrong in an item, and adds the bits that it drives.
fn note_in_item<'a>(
    alloc: Global,
    design: &DesignNets<'a>,
    nets: &Nets<'a>,
    item: &'a Item,
    driven: &mut BitSet,
    found: &mut Earliest<'a>,
) -> Result<(), NoMemory>
    ensures found { OnOk result ((before : List Assigned) → Has nets.now (kept_at driven.old.runs) before
        → found.new ≡ fold earlier found.old (doubles_in_groups nets.now before (groups_of design.now.design nets.now item.now))) }
    ensures driven { OnOk result ((before : List Assigned) → Has nets.now (kept_at driven.old.runs) before
        → Has nets.now (kept_at driven.new.runs) (before ++ assigned_by design.now.design nets.now item.now)) }
{
    let groups = groups_of(alloc, design, nets, item)?;
    note_in_groups(alloc, nets, groups.as_slice(), driven, found)?;
    add_groups(driven, groups.as_slice())?;
    Ok(())
}

fn note_in_groups<'a>(
    alloc: Global,
    nets: &Nets<'a>,
    groups: &[Items<Select<'a>>],
    driven: &BitSet,
    found: &mut Earliest<'a>,
) -> Result<(), NoMemory>
    requires { GroupsAreNumbered nets.now groups.now }
    ensures { OnOk result ((before : List Assigned) → Has nets.now (kept_at driven.now.runs) before
        → found.new ≡ fold earlier found.old (doubles_in_groups nets.now before (groups_shown groups.now))) }
{
    for group in groups {
        let mut here = BitSet::new(alloc);
        note_in_group(nets, group.as_slice(), driven, &mut here, found)?;
    }
    Ok(())
}

// Notes the selects of a group that have a bit that earlier items drive, or that one before them in the group has, and
// adds the bits of the group to `here`.
fn note_in_group<'a>(
    nets: &Nets<'a>,
    group: &[Select<'a>],
    driven: &BitSet,
    here: &mut BitSet,
    found: &mut Earliest<'a>,
) -> Result<(), NoMemory>
    requires { AreNumbered nets.now group.now }
    ensures { OnOk result ((before others : List Assigned) → Has nets.now (kept_at driven.now.runs) before
        → Has nets.now (kept_at here.old.runs) others
        → found.new ≡ fold earlier found.old (doubles_in_group nets.now before others (shown group.now))) }
{
    for select in group {
        let is_double = is_double(driven, here, select);
        note_if(is_double, nets.module(), select.at, select.name, found);
        add_select(here, select)?;
    }
    Ok(())
}

// Whether a select has a bit of those that earlier items drive, or of those before it in its group.
fn is_double(driven: &BitSet, here: &BitSet, select: &Select<'_>) -> bool
    ensures { (m : Tree) (before others : List Assigned) → IsRunOf m select.now.name.now select.now.bits
        → Has m (kept_at driven.now.runs) before → Has m (kept_at here.now.runs) others
        → result ≡ (overlaps_any before (assigned select.now) || overlaps_any others (assigned select.now)) }
{
    overlaps(driven, select) || overlaps(here, select)
}

fn overlaps(driven: &BitSet, select: &Select<'_>) -> bool
    ensures { (m : Tree) (before : List Assigned) → IsRunOf m select.now.name.now select.now.bits
        → Has m (kept_at driven.now.runs) before → result ≡ overlaps_any before (assigned select.now) }
{
    driven.overlaps(select.bits)
}

fn add_groups(driven: &mut BitSet, groups: &[Items<Select<'_>>]) -> Result<(), NoMemory>
    ensures { OnOk result ((m : Tree) (before : List Assigned) → GroupsAreNumbered m groups.now
        → Has m (kept_at driven.old.runs) before → Has m (kept_at driven.new.runs) (before ++ joined (groups_shown groups.now))) }
{
    for added in groups {
        add_group(driven, added.as_slice())?;
    }
    Ok(())
}

fn add_group(driven: &mut BitSet, group: &[Select<'_>]) -> Result<(), NoMemory>
    ensures { OnOk result ((m : Tree) (before : List Assigned) → AreNumbered m group.now
        → Has m (kept_at driven.old.runs) before → Has m (kept_at driven.new.runs) (before ++ shown group.now)) }
{
    for select in group {
        add_select(driven, select)?;
    }
    Ok(())
}

fn add_select(driven: &mut BitSet, select: &Select<'_>) -> Result<(), NoMemory>
    ensures { OnOk result ((m : Tree) (before : List Assigned) → IsRunOf m select.now.name.now select.now.bits
        → Has m (kept_at driven.old.runs) before → Has m (kept_at driven.new.runs) (before ++ assigned select.now ∷ [])) }
{
    driven.add(select.bits)
}
