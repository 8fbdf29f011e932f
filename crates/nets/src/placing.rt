//! Names are put in a table in their order.
ghost use Rattle.std.specs.Prelude.{◌≡◌, ◌∷◌, [], IfOk, OnOk, filter, filter_map, map};
ghost use Rattle.vlog_tree.specs.Meaning.Names.{declared_name, implicit_names, is_implicit};
ghost use Rattle.nets.specs.Nets.{net_of, nets};
ghost use Rattle.nets.specs.Placed.{entries_shown, one_placed, placed};

use crate::Net;
use crate::facts::Facts;
use crate::uses::Use;
use bm_base::{Name, NoMemory};
use indexmap::IndexMap;
use std::alloc::Global;
use vlog_tree::Item;

/// The names of a module in their order, each with what it says of it.
pub(crate) fn nets_of<'a>(
    alloc: Global,
    facts: &Facts<'a>,
) -> Result<IndexMap<&'a [u8], Net>, NoMemory>
    ensures { IfOk result (λ table. entries_shown table.entries ≡ nets facts.now.m.now) }
{
    let mut table = IndexMap::new(alloc);
    place_ports(&mut table, facts)?;
    place_declared(&mut table, facts)?;
    place_implicit(&mut table, facts)?;
    Ok(table)
}

fn place_ports<'a>(table: &mut IndexMap<&'a [u8], Net>, facts: &Facts<'a>) -> Result<(), NoMemory>
    ensures { OnOk result (entries_shown table.new.entries
        ≡ placed (net_of facts.now.m.now) (entries_shown table.old.entries) facts.now.m.now.ports) }
{
    let m = facts.m;
    for port in m.ports.as_slice() {
        place_name(table, facts, port)?;
    }
    Ok(())
}

fn place_declared<'a>(
    table: &mut IndexMap<&'a [u8], Net>,
    facts: &Facts<'a>,
) -> Result<(), NoMemory>
    ensures { OnOk result (entries_shown table.new.entries
        ≡ placed (net_of facts.now.m.now) (entries_shown table.old.entries)
        (filter_map declared_name facts.now.m.now.items)) }
{
    let m = facts.m;
    for item in m.items.as_slice() {
        place_item(table, facts, item)?;
    }
    Ok(())
}

// Places the name that the item declares, if it is a declaration.
fn place_item<'a>(
    table: &mut IndexMap<&'a [u8], Net>,
    facts: &Facts<'a>,
    item: &'a Item,
) -> Result<(), NoMemory>
    ensures { OnOk result (entries_shown table.new.entries
        ≡ placed (net_of facts.now.m.now) (entries_shown table.old.entries)
        (filter_map declared_name (item.now ∷ []))) }
{
    match item {
        Item::Decl { name, .. } => place_name(table, facts, name),
        _ => Ok(()),
    }
}

fn place_name<'a>(
    table: &mut IndexMap<&'a [u8], Net>,
    facts: &Facts<'a>,
    name: &'a Name,
) -> Result<(), NoMemory>
    ensures { OnOk result (entries_shown table.new.entries
        ≡ one_placed (net_of facts.now.m.now) (entries_shown table.old.entries) name.now) }
{
    place(table, facts, name.bytes())
}

fn place_implicit<'a>(
    table: &mut IndexMap<&'a [u8], Net>,
    facts: &Facts<'a>,
) -> Result<(), NoMemory>
    ensures { OnOk result (entries_shown table.new.entries
        ≡ placed (net_of facts.now.m.now) (entries_shown table.old.entries) (implicit_names facts.now.m.now)) }
{
    for one in facts.uses.as_slice() {
        place_if_implicit(table, facts, one.name)?;
    }
    Ok(())
}

fn place_if_implicit<'a>(
    table: &mut IndexMap<&'a [u8], Net>,
    facts: &Facts<'a>,
    name: &'a [u8],
) -> Result<(), NoMemory>
    ensures { OnOk result (entries_shown table.new.entries
        ≡ placed (net_of facts.now.m.now) (entries_shown table.old.entries)
        (filter (is_implicit facts.now.m.now) (name.now ∷ []))) }
{
    if facts.is_implicit(name) {
        place(table, facts, name)
    } else {
        Ok(())
    }
}

// Places a name, unless it is there or nothing is said of it.
fn place<'a>(
    table: &mut IndexMap<&'a [u8], Net>,
    facts: &Facts<'a>,
    name: &'a [u8],
) -> Result<(), NoMemory>
    ensures { OnOk result (entries_shown table.new.entries
        ≡ one_placed (net_of facts.now.m.now) (entries_shown table.old.entries) name.now) }
{
    if table.contains_key(name) {
        return Ok(());
    }
    if let Some(net) = facts.net(name) {
        table.insert(name, net)?;
    }
    Ok(())
}
