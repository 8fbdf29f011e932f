//! What the items of a module assign, in groups in which no bit may stand twice.
ghost use Rattle.std.specs.Prelude.{◌≡◌, ◌∷◌, ◌++◌, [], IfOk, OnOk, flat_map, map};
ghost use Rattle.driver_rules.specs.Doubles.{left_assigned, stmt_lefts};
ghost use Rattle.driver_rules.specs.Groups.{GroupsAreNumbered, groups_of, groups_shown, instance_assigned, joined};

use crate::assigned::{add_left, add_lefts};
use crate::outputs::add_instance;
use crate::select::Select;
use bm_base::{Name, NoMemory};
use design_nets::DesignNets;
use nets::Nets;
use sqlite_items::Items;
use std::alloc::Global;
use vlog_tree::{Item, Left, Link, Stmt};

/// The groups of an item: each left side of an `always` is one, and so is all that another item assigns.
pub(crate) fn groups_of<'a>(
    alloc: Global,
    design: &DesignNets<'a>,
    nets: &Nets<'a>,
    item: &'a Item,
) -> Result<Items<Items<Select<'a>>>, NoMemory>
    ensures shown { IfOk result (λ groups. groups_shown groups ≡ groups_of design.now.design nets.now item.now) }
    ensures numbered { IfOk result (GroupsAreNumbered nets.now) }
{
    let mut groups = Items::new(alloc);
    add_item(alloc, &mut groups, design, nets, item)?;
    Ok(groups)
}

fn add_item<'a>(
    alloc: Global,
    groups: &mut Items<Items<Select<'a>>>,
    design: &DesignNets<'a>,
    nets: &Nets<'a>,
    item: &'a Item,
) -> Result<(), NoMemory>
    ensures shown { OnOk result (groups_shown groups.new
        ≡ groups_shown groups.old ++ groups_of design.now.design nets.now item.now) }
    ensures numbered { OnOk result (GroupsAreNumbered nets.now groups.old → GroupsAreNumbered nets.now groups.new) }
{
    match item {
        Item::Assign { left, .. } => add_left_group(alloc, groups, nets, left),
        Item::Gate { outs, .. } => add_gate_group(alloc, groups, nets, outs.as_slice()),
        Item::Instance { module, links, .. } => {
            add_instance_group(alloc, groups, design, nets, module, links.as_slice())
        }
        Item::Always { body, .. } => add_stmt(alloc, groups, nets, body),
        Item::Decl { .. } => Ok(()),
        Item::Initial { .. } => Ok(()),
    }
}

fn add_left_group<'a>(
    alloc: Global,
    groups: &mut Items<Items<Select<'a>>>,
    nets: &Nets<'a>,
    left: &'a Left,
) -> Result<(), NoMemory>
    ensures shown { OnOk result (groups_shown groups.new
        ≡ groups_shown groups.old ++ left_assigned nets.now left.now ∷ []) }
    ensures numbered { OnOk result (GroupsAreNumbered nets.now groups.old → GroupsAreNumbered nets.now groups.new) }
{
    let mut group = Items::new(alloc);
    add_left(&mut group, nets, left)?;
    groups.push(group)?;
    Ok(())
}

fn add_gate_group<'a>(
    alloc: Global,
    groups: &mut Items<Items<Select<'a>>>,
    nets: &Nets<'a>,
    outs: &'a [Left],
) -> Result<(), NoMemory>
    ensures shown { OnOk result (groups_shown groups.new
        ≡ groups_shown groups.old ++ joined (map (left_assigned nets.now) outs.now) ∷ []) }
    ensures numbered { OnOk result (GroupsAreNumbered nets.now groups.old → GroupsAreNumbered nets.now groups.new) }
{
    let mut group = Items::new(alloc);
    add_lefts(&mut group, nets, outs)?;
    groups.push(group)?;
    Ok(())
}

fn add_instance_group<'a>(
    alloc: Global,
    groups: &mut Items<Items<Select<'a>>>,
    design: &DesignNets<'a>,
    nets: &Nets<'a>,
    inner: &'a Name,
    links: &'a [Link],
) -> Result<(), NoMemory>
    ensures shown { OnOk result (groups_shown groups.new
        ≡ groups_shown groups.old ++ instance_assigned design.now.design nets.now inner.now links.now ∷ []) }
    ensures numbered { OnOk result (GroupsAreNumbered nets.now groups.old → GroupsAreNumbered nets.now groups.new) }
{
    let mut group = Items::new(alloc);
    add_instance(&mut group, design, nets, inner, links)?;
    groups.push(group)?;
    Ok(())
}

#[cycle(stmts)]
fn add_stmt<'a>(
    alloc: Global,
    groups: &mut Items<Items<Select<'a>>>,
    nets: &Nets<'a>,
    stmt: &'a Stmt,
) -> Result<(), NoMemory>
    ensures shown { OnOk result (groups_shown groups.new ≡ groups_shown groups.old ++ stmt_lefts nets.now stmt.now) }
    ensures numbered { OnOk result (GroupsAreNumbered nets.now groups.old → GroupsAreNumbered nets.now groups.new) }
{
    match stmt {
        Stmt::Empty => Ok(()),
        Stmt::Block(body) => add_stmts(alloc, groups, nets, body.as_slice()),
        Stmt::If { first, other, .. } => {
            add_stmt(alloc, groups, nets, first.get())?;
            match other {
                Some(other) => add_stmt(alloc, groups, nets, other.get()),
                None => Ok(()),
            }
        }
        Stmt::Set { left, .. } => add_left_group(alloc, groups, nets, left),
    }
}

#[cycle(stmts)]
fn add_stmts<'a>(
    alloc: Global,
    groups: &mut Items<Items<Select<'a>>>,
    nets: &Nets<'a>,
    body: &'a [Stmt],
) -> Result<(), NoMemory>
    ensures shown { OnOk result (groups_shown groups.new
        ≡ groups_shown groups.old ++ flat_map (λ lefts. lefts) (map (stmt_lefts nets.now) body.now)) }
    ensures numbered { OnOk result (GroupsAreNumbered nets.now groups.old → GroupsAreNumbered nets.now groups.new) }
{
    for stmt in body {
        add_stmt(alloc, groups, nets, stmt)?;
    }
    Ok(())
}
