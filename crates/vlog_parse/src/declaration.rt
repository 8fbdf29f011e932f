//! Declarations of nets, registers and ports (IEEE 1364-2005, clauses 4.2 and 12.3).
ghost use Rattle.std.specs.Prelude.{◌<◌, length, OnOk};
ghost use Rattle.vlog_tree.specs.Spelling.Declarations as spelling;
ghost use Rattle.vlog_parse.specs.Declarations as spec;
ghost use Rattle.vlog_parse.specs.Gathers as gathers;
ghost use Rattle.vlog_parse.specs.Reads.{Reads, ReadsInto};

use crate::cursor::Cursor;
use crate::declared::{push_register, push_wire, register, wire};
use crate::delay::any_delay;
use crate::shape::{Shape, any_range, port_shape};
use sqlite_items::Items;
use std::alloc::Global;
use vlog_numbers::Fault;
use vlog_tree::{Item, NetKind};

/// A declaration that begins with a direction.
#[tactic(auto, unfolding(crate::specs::Declarations::port_items))]
pub fn port_items(alloc: Global, cursor: &mut Cursor<'_, '_>) -> Result<Items<Item>, Fault>
    ensures reads { Reads (spec.port_items cursor.old) result cursor.new }
    ensures consumes { OnOk result (length cursor.new < length cursor.old) }
{
    let shape = port_shape(cursor)?;
    registers(alloc, cursor, shape)
}

/// A declaration that begins with `wire`.
#[tactic(auto, unfolding(crate::specs::Declarations::wire_items))]
pub fn wire_items(
    alloc: Global,
    cursor: &mut Cursor<'_, '_>,
    depth: usize,
) -> Result<Items<Item>, Fault>
    ensures reads { Reads (spec.wire_items depth cursor.old) result cursor.new }
    ensures consumes { OnOk result (length cursor.new < length cursor.old) }
{
    cursor.expect("wire")?;
    let range = any_range(cursor)?;
    any_delay(alloc, cursor)?;
    let shape = Shape {
        dir: None,
        kind: NetKind::Wire,
        range,
    };
    wires(alloc, cursor, depth, shape)
}

/// A declaration that begins with `reg`.
#[tactic(auto, unfolding(crate::specs::Declarations::reg_items))]
pub fn reg_items(alloc: Global, cursor: &mut Cursor<'_, '_>) -> Result<Items<Item>, Fault>
    ensures reads { Reads (spec.reg_items cursor.old) result cursor.new }
    ensures consumes { OnOk result (length cursor.new < length cursor.old) }
{
    cursor.expect("reg")?;
    let range = any_range(cursor)?;
    let shape = Shape {
        dir: None,
        kind: NetKind::Reg,
        range,
    };
    registers(alloc, cursor, shape)
}

// The names of registers or ports, and the semicolon.
#[tactic(auto, unfolding(crate::specs::Declarations::registers))]
fn registers(alloc: Global, cursor: &mut Cursor<'_, '_>, shape: Shape) -> Result<Items<Item>, Fault>
    ensures reads { Reads (spec.registers shape cursor.old) result cursor.new }
    ensures consumes { OnOk result (length cursor.new < length cursor.old) }
{
    let items = register_list(alloc, cursor, shape)?;
    cursor.expect(";")?;
    Ok(items)
}

#[tactic(auto, unfolding(crate::specs::Gathers::gathered))]
fn register_list(
    alloc: Global,
    cursor: &mut Cursor<'_, '_>,
    shape: Shape,
) -> Result<Items<Item>, Fault>
    ensures reads { Reads (gathers.gathered (spelling.register_items shape) (spec.register shape.kind) cursor.old)
        result cursor.new }
    ensures consumes { OnOk result (length cursor.new < length cursor.old) }
{
    let mut items = Items::new(alloc);
    add_register(alloc, cursor, shape, &mut items)?;
    while cursor.sees(",") {
        add_register_after_comma(alloc, cursor, shape, &mut items)?;
    }
    Ok(items)
}

#[tactic(auto, unfolding(crate::specs::Gathers::add_after_comma))]
fn add_register_after_comma(
    alloc: Global,
    cursor: &mut Cursor<'_, '_>,
    shape: Shape,
    items: &mut Items<Item>,
) -> Result<(), Fault>
    ensures reads { ReadsInto
        (gathers.add_after_comma (spelling.register_items shape) (spec.register shape.kind) items.old cursor.old)
        result items.new cursor.new }
    ensures consumes { OnOk result (length cursor.new < length cursor.old) }
{
    cursor.expect(",")?;
    add_register(alloc, cursor, shape, items)
}

#[tactic(auto, unfolding(crate::specs::Gathers::add))]
fn add_register(
    alloc: Global,
    cursor: &mut Cursor<'_, '_>,
    shape: Shape,
    items: &mut Items<Item>,
) -> Result<(), Fault>
    ensures reads { ReadsInto
        (gathers.add (spelling.register_items shape) (spec.register shape.kind) items.old cursor.old)
        result items.new cursor.new }
    ensures consumes { OnOk result (length cursor.new < length cursor.old) }
{
    let declared = register(alloc, cursor, shape.kind)?;
    push_register(shape, declared, items)?;
    Ok(())
}

// The names of wires, and the semicolon.
#[tactic(auto, unfolding(crate::specs::Declarations::wires))]
fn wires(
    alloc: Global,
    cursor: &mut Cursor<'_, '_>,
    depth: usize,
    shape: Shape,
) -> Result<Items<Item>, Fault>
    ensures reads { Reads (spec.wires depth shape cursor.old) result cursor.new }
    ensures consumes { OnOk result (length cursor.new < length cursor.old) }
{
    let items = wire_list(alloc, cursor, depth, shape)?;
    cursor.expect(";")?;
    Ok(items)
}

#[tactic(auto, unfolding(crate::specs::Gathers::gathered))]
fn wire_list(
    alloc: Global,
    cursor: &mut Cursor<'_, '_>,
    depth: usize,
    shape: Shape,
) -> Result<Items<Item>, Fault>
    ensures reads { Reads (gathers.gathered (spelling.wire_items shape) (spec.wire depth) cursor.old)
        result cursor.new }
    ensures consumes { OnOk result (length cursor.new < length cursor.old) }
{
    let mut items = Items::new(alloc);
    add_wire(alloc, cursor, depth, shape, &mut items)?;
    while cursor.sees(",") {
        add_wire_after_comma(alloc, cursor, depth, shape, &mut items)?;
    }
    Ok(items)
}

#[tactic(auto, unfolding(crate::specs::Gathers::add_after_comma))]
fn add_wire_after_comma(
    alloc: Global,
    cursor: &mut Cursor<'_, '_>,
    depth: usize,
    shape: Shape,
    items: &mut Items<Item>,
) -> Result<(), Fault>
    ensures reads { ReadsInto
        (gathers.add_after_comma (spelling.wire_items shape) (spec.wire depth) items.old cursor.old)
        result items.new cursor.new }
    ensures consumes { OnOk result (length cursor.new < length cursor.old) }
{
    cursor.expect(",")?;
    add_wire(alloc, cursor, depth, shape, items)
}

#[tactic(auto, unfolding(crate::specs::Gathers::add))]
fn add_wire(
    alloc: Global,
    cursor: &mut Cursor<'_, '_>,
    depth: usize,
    shape: Shape,
    items: &mut Items<Item>,
) -> Result<(), Fault>
    ensures reads { ReadsInto (gathers.add (spelling.wire_items shape) (spec.wire depth) items.old cursor.old)
        result items.new cursor.new }
    ensures consumes { OnOk result (length cursor.new < length cursor.old) }
{
    let declared = wire(alloc, cursor, depth)?;
    push_wire(shape, declared, items)?;
    Ok(())
}
