//! The items of a module (IEEE 1364-2005, clauses 4, 6, 7, 9 and 12).

ghost use Rattle.std.specs.Prelude.{◌≡◌, ◌<◌, ◌∷◌, [], length, IfOk, OnOk};
ghost use Rattle.vlog_parse.specs.Items as spec;
ghost use Rattle.vlog_parse.specs.Gates as gates;
ghost use Rattle.vlog_parse.specs.Reads.{Reads, separated};

use crate::cursor::Cursor;
use crate::declaration::{port_items, reg_items, wire_items};
use crate::delay::any_delay;
use crate::expr::expr;
use crate::gate::{input_gate, input_kind, output_gate, output_kind};
use crate::instance::instance;
use crate::left::left;
use crate::list::separated;
use crate::number::number;
use crate::stmt::stmt;
use bm_base::Name;
use sqlite_items::Items;
use std::alloc::{AllocError, Global};
use vlog_numbers::Fault;
use vlog_tree::{Expr, GateKind, Item};

/// One item of the source, which may be several of the tree.
#[tactic(auto, unfolding(crate::specs::Items::item, crate::specs::Items::items_by))]
pub fn item(alloc: Global, cursor: &mut Cursor<'_, '_>, depth: usize) -> Result<Items<Item>, Fault>
    ensures reads { Reads (spec.item depth cursor.old) result cursor.new }
    ensures consumes { OnOk result (length cursor.new < length cursor.old) }
{
    let text = cursor.terminal();
    if text == "input".as_bytes() || text == "output".as_bytes() {
        port_items(alloc, cursor)
    } else if text == "wire".as_bytes() {
        wire_items(alloc, cursor, depth)
    } else if text == "reg".as_bytes() {
        reg_items(alloc, cursor)
    } else {
        other_items(alloc, cursor, depth, text)
    }
}

#[tactic(auto, unfolding(crate::specs::Items::other_items))]
fn other_items(
    alloc: Global,
    cursor: &mut Cursor<'_, '_>,
    depth: usize,
    text: &[u8],
) -> Result<Items<Item>, Fault>
    ensures reads { Reads (spec.other_items depth text.now cursor.old) result cursor.new }
    ensures consumes { OnOk result (length cursor.new < length cursor.old) }
{
    if text == "assign".as_bytes() {
        assigns(alloc, cursor, depth)
    } else if text == "always".as_bytes() {
        always(alloc, cursor, depth)
    } else if text == "initial".as_bytes() {
        initial(alloc, cursor)
    } else {
        gates_or_instances(alloc, cursor, depth, text)
    }
}

#[tactic(auto, unfolding(crate::specs::Items::gates_or_instances))]
fn gates_or_instances(
    alloc: Global,
    cursor: &mut Cursor<'_, '_>,
    depth: usize,
    text: &[u8],
) -> Result<Items<Item>, Fault>
    ensures reads { Reads (spec.gates_or_instances depth text.now cursor.old) result cursor.new }
    ensures consumes { OnOk result (length cursor.new < length cursor.old) }
{
    if let Some(kind) = input_kind(text) {
        return input_gates(alloc, cursor, depth, kind);
    }
    if let Some(kind) = output_kind(text) {
        return output_gates(alloc, cursor, depth, kind);
    }
    instances(alloc, cursor, depth)
}

#[tactic(auto, unfolding(crate::specs::Items::assigns))]
fn assigns(alloc: Global, cursor: &mut Cursor<'_, '_>, depth: usize) -> Result<Items<Item>, Fault>
    ensures reads { Reads (spec.assigns depth cursor.old) result cursor.new }
    ensures consumes { OnOk result (length cursor.new < length cursor.old) }
{
    cursor.expect("assign")?;
    any_delay(alloc, cursor)?;
    let found = assign_list(alloc, cursor, depth)?;
    cursor.expect(";")?;
    Ok(found)
}

fn assign_list(
    alloc: Global,
    cursor: &mut Cursor<'_, '_>,
    depth: usize,
) -> Result<Items<Item>, Fault>
    ensures reads { Reads (separated (spec.assign depth) cursor.old) result cursor.new }
    ensures consumes { OnOk result (length cursor.new < length cursor.old) }
{
    separated(alloc, cursor, |cursor: &mut Cursor<'_, '_>| {
        assign(alloc, cursor, depth)
    })
}

#[tactic(auto, unfolding(crate::specs::Items::assign))]
fn assign(alloc: Global, cursor: &mut Cursor<'_, '_>, depth: usize) -> Result<Item, Fault>
    ensures reads { Reads (spec.assign depth cursor.old) result cursor.new }
    ensures consumes { OnOk result (length cursor.new < length cursor.old) }
{
    let at = cursor.place();
    let target = left(alloc, cursor, depth)?;
    cursor.expect("=")?;
    let right = expr(alloc, cursor, depth)?;
    Ok(Item::Assign {
        at,
        left: target,
        right,
    })
}

#[tactic(auto, unfolding(crate::specs::Items::input_gates))]
fn input_gates(
    alloc: Global,
    cursor: &mut Cursor<'_, '_>,
    depth: usize,
    kind: GateKind,
) -> Result<Items<Item>, Fault>
    ensures reads { Reads (spec.input_gates depth kind cursor.old) result cursor.new }
    ensures consumes { OnOk result (length cursor.new < length cursor.old) }
{
    cursor.take()?;
    any_delay(alloc, cursor)?;
    let found = input_gate_list(alloc, cursor, depth, kind)?;
    cursor.expect(";")?;
    Ok(found)
}

fn input_gate_list(
    alloc: Global,
    cursor: &mut Cursor<'_, '_>,
    depth: usize,
    kind: GateKind,
) -> Result<Items<Item>, Fault>
    ensures reads { Reads (separated (gates.input_gate depth kind) cursor.old) result cursor.new }
    ensures consumes { OnOk result (length cursor.new < length cursor.old) }
{
    separated(alloc, cursor, |cursor: &mut Cursor<'_, '_>| {
        input_gate(alloc, cursor, depth, kind)
    })
}

#[tactic(auto, unfolding(crate::specs::Items::output_gates))]
fn output_gates(
    alloc: Global,
    cursor: &mut Cursor<'_, '_>,
    depth: usize,
    kind: GateKind,
) -> Result<Items<Item>, Fault>
    ensures reads { Reads (spec.output_gates depth kind cursor.old) result cursor.new }
    ensures consumes { OnOk result (length cursor.new < length cursor.old) }
{
    cursor.take()?;
    any_delay(alloc, cursor)?;
    let found = output_gate_list(alloc, cursor, depth, kind)?;
    cursor.expect(";")?;
    Ok(found)
}

fn output_gate_list(
    alloc: Global,
    cursor: &mut Cursor<'_, '_>,
    depth: usize,
    kind: GateKind,
) -> Result<Items<Item>, Fault>
    ensures reads { Reads (separated (gates.output_gate depth kind) cursor.old) result cursor.new }
    ensures consumes { OnOk result (length cursor.new < length cursor.old) }
{
    separated(alloc, cursor, |cursor: &mut Cursor<'_, '_>| {
        output_gate(alloc, cursor, depth, kind)
    })
}

#[tactic(auto, unfolding(crate::specs::Items::instances))]
fn instances(alloc: Global, cursor: &mut Cursor<'_, '_>, depth: usize) -> Result<Items<Item>, Fault>
    ensures reads { Reads (spec.instances depth cursor.old) result cursor.new }
    ensures consumes { OnOk result (length cursor.new < length cursor.old) }
{
    let definition = cursor.name(alloc)?;
    let found = instance_list(alloc, cursor, depth, &definition)?;
    cursor.expect(";")?;
    Ok(found)
}

fn instance_list(
    alloc: Global,
    cursor: &mut Cursor<'_, '_>,
    depth: usize,
    definition: &Name,
) -> Result<Items<Item>, Fault>
    ensures reads { Reads (separated (gates.instance depth definition.now) cursor.old) result cursor.new }
    ensures consumes { OnOk result (length cursor.new < length cursor.old) }
{
    separated(alloc, cursor, |cursor: &mut Cursor<'_, '_>| {
        instance(alloc, cursor, depth, definition)
    })
}

#[tactic(auto, unfolding(crate::specs::Items::always))]
fn always(alloc: Global, cursor: &mut Cursor<'_, '_>, depth: usize) -> Result<Items<Item>, Fault>
    ensures reads { Reads (spec.always depth cursor.old) result cursor.new }
    ensures consumes { OnOk result (length cursor.new < length cursor.old) }
{
    let at = cursor.place();
    cursor.expect("always")?;
    cursor.expect("@")?;
    cursor.expect("(")?;
    cursor.expect("posedge")?;
    let clock = cursor.name(alloc)?;
    cursor.expect(")")?;
    let body = stmt(alloc, cursor, depth)?;
    Ok(only(alloc, Item::Always { at, clock, body })?)
}

#[tactic(auto, unfolding(crate::specs::Items::initial))]
fn initial(alloc: Global, cursor: &mut Cursor<'_, '_>) -> Result<Items<Item>, Fault>
    ensures reads { Reads (spec.initial cursor.old) result cursor.new }
    ensures consumes { OnOk result (length cursor.new < length cursor.old) }
{
    let at = cursor.place();
    cursor.expect("initial")?;
    let name = cursor.name(alloc)?;
    cursor.expect("=")?;
    let place = cursor.place();
    let bits = number(alloc, cursor)?;
    cursor.expect(";")?;
    let value = Expr::Number { at: place, bits };
    Ok(only(alloc, Item::Initial { at, name, value })?)
}

// A list of one item.
fn only(alloc: Global, item: Item) -> Result<Items<Item>, AllocError>
    ensures { IfOk result (λ found. found ≡ item ∷ []) }
{
    let mut found = Items::new(alloc);
    found.push(item)?;
    Ok(found)
}
