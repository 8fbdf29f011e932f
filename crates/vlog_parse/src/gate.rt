//! Gates (IEEE 1364-2005, clause 7).

ghost use Rattle.std.specs.Prelude.{◌≡◌, ◌<◌, ◌≤◌, length, IfOk, OnOk, OnSome};
ghost use Rattle.vlog_tree.specs.Spelling.Gates as tables;
ghost use Rattle.vlog_parse.specs.Gates as spec;
ghost use Rattle.vlog_parse.specs.Attempts.{attempt};
ghost use Rattle.vlog_parse.specs.Exprs as exprs;
ghost use Rattle.vlog_parse.specs.Reads as reads;
ghost use Rattle.vlog_parse.specs.Reads.{Reads, ReadsInto, loop, one_more};

use crate::cursor::Cursor;
use crate::expr::expr;
use crate::left::left;
use crate::list::separated;
use bm_base::Name;
use sqlite_items::Items;
use std::alloc::Global;
use vlog_numbers::Fault;
use vlog_tree::{Expr, GateKind, Item, Left};

/// The gate with this word that has one output.
pub fn input_kind(text: &[u8]) -> Option<GateKind>
    ensures { result ≡ tables.input_gate text.now }
{
    if text == "and".as_bytes() {
        Some(GateKind::And)
    } else if text == "nand".as_bytes() {
        Some(GateKind::Nand)
    } else if text == "or".as_bytes() {
        Some(GateKind::Or)
    } else if text == "nor".as_bytes() {
        Some(GateKind::Nor)
    } else if text == "xor".as_bytes() {
        Some(GateKind::Xor)
    } else if text == "xnor".as_bytes() {
        Some(GateKind::Xnor)
    } else {
        None
    }
}

/// The gate with this word that has one input.
pub fn output_kind(text: &[u8]) -> Option<GateKind>
    ensures { result ≡ tables.output_gate text.now }
{
    if text == "buf".as_bytes() {
        Some(GateKind::Buf)
    } else if text == "not".as_bytes() {
        Some(GateKind::Not)
    } else {
        None
    }
}

/// One gate that has one output, after its word and delay.
#[tactic(auto, unfolding(crate::specs::Gates::input_gate))]
pub fn input_gate(
    alloc: Global,
    cursor: &mut Cursor<'_, '_>,
    depth: usize,
    kind: GateKind,
) -> Result<Item, Fault>
    ensures reads { Reads (spec.input_gate depth kind cursor.old) result cursor.new }
    ensures consumes { OnOk result (length cursor.new < length cursor.old) }
{
    let at = cursor.place();
    let name = title(alloc, cursor)?;
    cursor.expect("(")?;
    let out = left(alloc, cursor, depth)?;
    cursor.expect(",")?;
    let ins = inputs(alloc, cursor, depth)?;
    cursor.expect(")")?;
    let mut outs = Items::new(alloc);
    outs.push(out)?;
    Ok(Item::Gate {
        at,
        kind,
        name,
        outs,
        ins,
    })
}

fn inputs(alloc: Global, cursor: &mut Cursor<'_, '_>, depth: usize) -> Result<Items<Expr>, Fault>
    ensures reads { Reads (reads.separated (exprs.expr depth) cursor.old) result cursor.new }
    ensures consumes { OnOk result (length cursor.new < length cursor.old) }
{
    separated(alloc, cursor, |cursor: &mut Cursor<'_, '_>| {
        expr(alloc, cursor, depth)
    })
}

/// One gate that has one input, after its word and delay.
#[tactic(auto, unfolding(crate::specs::Gates::output_gate))]
pub fn output_gate(
    alloc: Global,
    cursor: &mut Cursor<'_, '_>,
    depth: usize,
    kind: GateKind,
) -> Result<Item, Fault>
    ensures reads { Reads (spec.output_gate depth kind cursor.old) result cursor.new }
    ensures consumes { OnOk result (length cursor.new < length cursor.old) }
{
    let at = cursor.place();
    let name = title(alloc, cursor)?;
    cursor.expect("(")?;
    let outs = outputs(alloc, cursor, depth)?;
    let input = expr(alloc, cursor, depth)?;
    cursor.expect(")")?;
    let mut ins = Items::new(alloc);
    ins.push(input)?;
    Ok(Item::Gate {
        at,
        kind,
        name,
        outs,
        ins,
    })
}

#[tactic(auto, unfolding(crate::specs::Gates::title))]
fn title(alloc: Global, cursor: &mut Cursor<'_, '_>) -> Result<Option<Name>, Fault>
    ensures reads { Reads (spec.title cursor.old) result cursor.new }
    ensures shrinks { OnOk result (length cursor.new ≤ length cursor.old) }
{
    if cursor.sees("(") {
        return Ok(None);
    }
    Ok(Some(cursor.name(alloc)?))
}

// The outputs, with the comma after each.
#[tactic(auto, unfolding(crate::specs::Gates::outputs))]
fn outputs(alloc: Global, cursor: &mut Cursor<'_, '_>, depth: usize) -> Result<Items<Left>, Fault>
    ensures reads { Reads (spec.outputs depth cursor.old) result cursor.new }
    ensures consumes { OnOk result (length cursor.new < length cursor.old) }
{
    let mut found = Items::new(alloc);
    found.push(output(alloc, cursor, depth)?)?;
    more_outputs(alloc, cursor, depth, &mut found)?;
    Ok(found)
}

fn more_outputs(
    alloc: Global,
    cursor: &mut Cursor<'_, '_>,
    depth: usize,
    found: &mut Items<Left>,
) -> Result<(), Fault>
    ensures reads { ReadsInto (loop (spec.is_output depth) (one_more (spec.output depth)) found.old cursor.old)
        result found.new cursor.new }
    ensures shrinks { OnOk result (length cursor.new ≤ length cursor.old) }
{
    while let Some(next) = next_output(alloc, cursor, depth)? {
        found.push(next)?;
    }
    Ok(())
}

// One more output, if one stands next. The input can begin like an output, but has no comma after it.
fn next_output(
    alloc: Global,
    cursor: &mut Cursor<'_, '_>,
    depth: usize,
) -> Result<Option<Left>, Fault>
    ensures reads { Reads (attempt (spec.output depth) cursor.old) result cursor.new }
    ensures consumes { IfOk result (λ next. OnSome next (length cursor.new < length cursor.old)) }
{
    let mut ahead = cursor.copy();
    match output(alloc, &mut ahead, depth) {
        Ok(found) => {
            *cursor = ahead;
            Ok(Some(found))
        }
        Err(Fault::Token) => Ok(None),
        Err(Fault::Memory) => Err(Fault::Memory),
    }
}

#[tactic(auto, unfolding(crate::specs::Gates::output))]
fn output(alloc: Global, cursor: &mut Cursor<'_, '_>, depth: usize) -> Result<Left, Fault>
    ensures reads { Reads (spec.output depth cursor.old) result cursor.new }
    ensures consumes { OnOk result (length cursor.new < length cursor.old) }
{
    let found = left(alloc, cursor, depth)?;
    cursor.expect(",")?;
    Ok(found)
}
