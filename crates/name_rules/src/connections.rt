//! Rule E6: connections name ports of the inner module, each once, and there are no more ordered ones than ports.
ghost use Rattle.std.specs.Prelude.{◌≡◌, [], OnOk, fold, is_none};
ghost use Rattle.std.specs.List.{list_any};
ghost use Rattle.hierarchy.specs.Failures.{earlier};
ghost use Rattle.name_rules.specs.Uses.{bad_connection, bad_connections, bad_instance_of, bad_links_after, has_too_many};

use crate::ports::Ports;
use bm_base::{Name, NoMemory};
use hierarchy::{Earliest, Hierarchy};
use std::alloc::Global;
use vlog_tree::{Item, Link, Module};

/// Notes each connection of an instance in the module `m` that names no port of the inner module or one that is named
/// before it, and each instance with more ordered connections than ports. Takes time that grows with the connections
/// and the ports of the inner modules.
pub fn note_bad_connections<'a>(
    alloc: Global,
    hierarchy: &Hierarchy<'a>,
    m: &'a Module,
    found: &mut Earliest<'a>,
) -> Result<(), NoMemory>
    ensures { OnOk result (found.new ≡ fold earlier found.old (bad_connections hierarchy.now.design m.now)) }
{
    for item in m.items.as_slice() {
        note_bad_connection(alloc, hierarchy, m, item, found)?;
    }
    Ok(())
}

fn note_bad_connection<'a>(
    alloc: Global,
    hierarchy: &Hierarchy<'a>,
    m: &'a Module,
    item: &'a Item,
    found: &mut Earliest<'a>,
) -> Result<(), NoMemory>
    ensures { OnOk result (found.new ≡ fold earlier found.old (bad_connection hierarchy.now.design m.now item.now)) }
{
    match item {
        Item::Instance {
            at,
            module,
            name,
            links,
        } => match hierarchy.module_named(module.bytes()) {
            Some(inner) => note_bad_instance(alloc, m, *at, name, links.as_slice(), inner, found),
            None => Ok(()),
        },
        _ => Ok(()),
    }
}

fn note_bad_instance<'a>(
    alloc: Global,
    m: &'a Module,
    at: u64,
    name: &'a Name,
    links: &'a [Link],
    inner: &'a Module,
    found: &mut Earliest<'a>,
) -> Result<(), NoMemory>
    ensures { OnOk result (found.new
        ≡ fold earlier found.old (bad_instance_of m.now at name.now links.now inner.now)) }
{
    if has_too_many(inner, links) {
        found.note(at, m.name.bytes(), name.bytes());
    }
    note_bad_links(alloc, m, links, inner, found)
}

// Whether there are more ordered connections than ports.
fn has_too_many(inner: &Module, links: &[Link]) -> bool
    ensures { result ≡ has_too_many inner.now links.now }
{
    has_ordered(links) && inner.ports.len() < links.len()
}

fn has_ordered(links: &[Link]) -> bool
    ensures { result ≡ list_any (λ link. is_none link.port) links.now }
{
    links.iter().any(|link| link.port.is_none())
}

fn note_bad_links<'a>(
    alloc: Global,
    m: &'a Module,
    links: &'a [Link],
    inner: &'a Module,
    found: &mut Earliest<'a>,
) -> Result<(), NoMemory>
    ensures { OnOk result (found.new ≡ fold earlier found.old (bad_links_after m.now inner.now [] links.now)) }
{
    let mut ports = Ports::of(alloc, inner.ports.as_slice())?;
    for link in links {
        ports.connect(m, link, found)?;
    }
    Ok(())
}
