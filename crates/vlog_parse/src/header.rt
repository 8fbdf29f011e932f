//! Headers of modules (IEEE 1364-2005, clause 12.3).
ghost use Rattle.std.specs.Prelude.{◌≡◌, ◌<◌, ◌≤◌, length, OnOk};
ghost use Rattle.vlog_parse.specs.Modules as spec;
ghost use Rattle.vlog_parse.specs.Reads.{Reads, separated};
ghost use Rattle.vlog_parse.specs.Terminals.{name};

use crate::cursor::Cursor;
use crate::list::separated;
use crate::port::port_list;
use crate::shape::is_direction;
use bm_base::Name;
use sqlite_items::Items;
use std::alloc::Global;
use vlog_numbers::Fault;
use vlog_tree::Item;

/// The names of a module's ports, and what declares them if they have directions here.
#[derive(Drop)]
pub struct Header {
    pub names: Items<Name>,
    pub items: Items<Item>,
}

/// Perhaps a list of ports in parentheses.
#[tactic(auto, unfolding(crate::specs::Modules::any_header))]
pub fn any_header(alloc: Global, cursor: &mut Cursor<'_, '_>) -> Result<Header, Fault>
    ensures reads { Reads (spec.any_header cursor.old) result cursor.new }
    ensures shrinks { OnOk result (length cursor.new ≤ length cursor.old) }
{
    if !cursor.sees("(") {
        return Ok(no_ports(alloc));
    }
    in_parentheses(alloc, cursor)
}

#[tactic(auto, unfolding(crate::specs::Modules::in_parentheses))]
fn in_parentheses(alloc: Global, cursor: &mut Cursor<'_, '_>) -> Result<Header, Fault>
    ensures reads { Reads (spec.in_parentheses cursor.old) result cursor.new }
    ensures consumes { OnOk result (length cursor.new < length cursor.old) }
{
    cursor.expect("(")?;
    let header = inner_header(alloc, cursor)?;
    cursor.expect(")")?;
    Ok(header)
}

fn inner_header(alloc: Global, cursor: &mut Cursor<'_, '_>) -> Result<Header, Fault>
    ensures reads { Reads (spec.inner_header cursor.old) result cursor.new }
    ensures shrinks { OnOk result (length cursor.new ≤ length cursor.old) }
{
    if cursor.sees(")") {
        return Ok(no_ports(alloc));
    }
    if is_direction(cursor) {
        return declared_ports(alloc, cursor);
    }
    named_ports(alloc, cursor)
}

#[tactic(auto, unfolding(crate::specs::Modules::declared_ports))]
fn declared_ports(alloc: Global, cursor: &mut Cursor<'_, '_>) -> Result<Header, Fault>
    ensures reads { Reads (spec.declared_ports cursor.old) result cursor.new }
    ensures consumes { OnOk result (length cursor.new < length cursor.old) }
{
    let ports = port_list(alloc, cursor)?;
    Ok(Header {
        names: ports.names,
        items: ports.items,
    })
}

#[tactic(auto, unfolding(crate::specs::Modules::named_ports))]
fn named_ports(alloc: Global, cursor: &mut Cursor<'_, '_>) -> Result<Header, Fault>
    ensures reads { Reads (spec.named_ports cursor.old) result cursor.new }
    ensures consumes { OnOk result (length cursor.new < length cursor.old) }
{
    let names = names(alloc, cursor)?;
    Ok(Header {
        names,
        items: Items::new(alloc),
    })
}

fn names(alloc: Global, cursor: &mut Cursor<'_, '_>) -> Result<Items<Name>, Fault>
    ensures reads { Reads (separated name cursor.old) result cursor.new }
    ensures consumes { OnOk result (length cursor.new < length cursor.old) }
{
    separated(
        alloc,
        cursor,
        |cursor: &mut Cursor<'_, '_>| cursor.name(alloc),
    )
}

fn no_ports(alloc: Global) -> Header
    ensures { result ≡ spec.no_ports }
{
    Header {
        names: Items::new(alloc),
        items: Items::new(alloc),
    }
}
