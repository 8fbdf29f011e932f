//! Ports that are declared in a header (IEEE 1364-2005, clause 12.3.4).
ghost use Rattle.std.specs.Prelude.{◌<◌, length, OnOk};
ghost use Rattle.vlog_parse.specs.Modules as spec;
ghost use Rattle.vlog_parse.specs.Reads.{Reads, ReadsInto};

use crate::cursor::Cursor;
use crate::declared::{push_register, register};
use crate::shape::{Shape, is_direction, port_shape};
use bm_base::Name;
use sqlite_items::Items;
use std::alloc::Global;
use vlog_numbers::Fault;
use vlog_tree::Item;

/// The ports that were read. One without a direction takes direction, kind and range of the one before.
#[derive(Drop)]
pub struct Ports {
    /// What was said of the last port.
    pub shape: Shape,
    pub names: Items<Name>,
    pub items: Items<Item>,
}

/// One or more ports, the first with a direction.
#[tactic(auto, unfolding(crate::specs::Modules::port_list))]
pub fn port_list(alloc: Global, cursor: &mut Cursor<'_, '_>) -> Result<Ports, Fault>
    ensures reads { Reads (spec.port_list cursor.old) result cursor.new }
    ensures consumes { OnOk result (length cursor.new < length cursor.old) }
{
    let shape = port_shape(cursor)?;
    let mut ports = Ports {
        shape,
        names: Items::new(alloc),
        items: Items::new(alloc),
    };
    add_port(alloc, cursor, &mut ports)?;
    while cursor.sees(",") {
        add_port_after_comma(alloc, cursor, &mut ports)?;
    }
    Ok(ports)
}

#[tactic(auto, unfolding(crate::specs::Modules::add_port_after_comma))]
fn add_port_after_comma(
    alloc: Global,
    cursor: &mut Cursor<'_, '_>,
    ports: &mut Ports,
) -> Result<(), Fault>
    ensures reads { ReadsInto (spec.add_port_after_comma ports.old cursor.old) result ports.new cursor.new }
    ensures consumes { OnOk result (length cursor.new < length cursor.old) }
{
    cursor.expect(",")?;
    if is_direction(cursor) {
        ports.shape = port_shape(cursor)?;
    }
    add_port(alloc, cursor, ports)
}

#[tactic(auto, unfolding(crate::specs::Modules::add_port))]
fn add_port(alloc: Global, cursor: &mut Cursor<'_, '_>, ports: &mut Ports) -> Result<(), Fault>
    ensures reads { ReadsInto (spec.add_port ports.old cursor.old) result ports.new cursor.new }
    ensures consumes { OnOk result (length cursor.new < length cursor.old) }
{
    let declared = register(alloc, cursor, ports.shape.kind)?;
    ports.names.push(declared.name.clone()?)?;
    push_register(ports.shape, declared, &mut ports.items)?;
    Ok(())
}
