//! The names of a declaration, each perhaps with a value.
ghost use Rattle.std.specs.Prelude.{◌≡◌, ◌<◌, ◌≤◌, ◌++◌, [], ◌∷◌, length, OnOk};
ghost use Rattle.vlog_tree.specs.declared.item.Item.TheVariants.{Decl};
ghost use Rattle.vlog_tree.specs.Spelling.Declarations as spelling;
ghost use Rattle.vlog_parse.specs.Declarations as spec;
ghost use Rattle.vlog_parse.specs.Reads.{Reads};

use crate::cursor::Cursor;
use crate::expr::expr;
use crate::number::number;
use crate::shape::Shape;
use bm_base::{Name, NoMemory};
use sqlite_items::Items;
use std::alloc::Global;
use std::marker::Model;
use vlog_numbers::Fault;
use vlog_tree::{Expr, Item, Left, NetKind};

/// A name that is declared, and its value if it has one.
#[derive(Drop)]
pub struct Declared {
    pub at: u64,
    pub name: Name,
    pub value: Option<Expr>,
}

impl Model for Declared {
    ghost use Rattle.std.specs.Coded.{codes};
    ghost use Rattle.vlog_tree.specs.Spelling.Declarations as spelling;
    ghost use Rattle.vlog_tree.specs.contracts.expr.Expr as tree;

    ghost Value = { spelling.Declared };

    ghost coded = { Prim.hlevel (codes, tree.the_row.coded) };

    ghost view = { λ declared. record { at = declared.at; name = declared.name; value = declared.value } };
}

/// A name of a register or port: after `reg` it may have a number.
#[tactic(auto, unfolding(crate::specs::Declarations::register))]
pub fn register(
    alloc: Global,
    cursor: &mut Cursor<'_, '_>,
    kind: NetKind,
) -> Result<Declared, Fault>
    ensures reads { Reads (spec.register kind cursor.old) result cursor.new }
    ensures consumes { OnOk result (length cursor.new < length cursor.old) }
{
    let at = cursor.place();
    let name = cursor.name(alloc)?;
    let value = register_value(alloc, cursor, kind)?;
    Ok(Declared { at, name, value })
}

#[tactic(auto, unfolding(crate::specs::Declarations::assigned_number))]
fn register_value(
    alloc: Global,
    cursor: &mut Cursor<'_, '_>,
    kind: NetKind,
) -> Result<Option<Expr>, Fault>
    ensures reads { Reads (spec.register_value kind cursor.old) result cursor.new }
    ensures shrinks { OnOk result (length cursor.new ≤ length cursor.old) }
{
    if kind != NetKind::Reg || !cursor.sees("=") {
        return Ok(None);
    }
    cursor.expect("=")?;
    let at = cursor.place();
    let bits = number(alloc, cursor)?;
    Ok(Some(Expr::Number { at, bits }))
}

/// A name of a wire, which may have an expression.
#[tactic(auto, unfolding(crate::specs::Declarations::wire))]
pub fn wire(alloc: Global, cursor: &mut Cursor<'_, '_>, depth: usize) -> Result<Declared, Fault>
    ensures reads { Reads (spec.wire depth cursor.old) result cursor.new }
    ensures consumes { OnOk result (length cursor.new < length cursor.old) }
{
    let at = cursor.place();
    let name = cursor.name(alloc)?;
    let value = wire_value(alloc, cursor, depth)?;
    Ok(Declared { at, name, value })
}

#[tactic(auto, unfolding(crate::specs::Declarations::assigned_expr))]
fn wire_value(
    alloc: Global,
    cursor: &mut Cursor<'_, '_>,
    depth: usize,
) -> Result<Option<Expr>, Fault>
    ensures reads { Reads (spec.wire_value depth cursor.old) result cursor.new }
    ensures shrinks { OnOk result (length cursor.new ≤ length cursor.old) }
{
    if !cursor.sees("=") {
        return Ok(None);
    }
    cursor.expect("=")?;
    Ok(Some(expr(alloc, cursor, depth)?))
}

/// Adds the declaration of a register's or port's name and, right after it, an `Initial` for its value.
pub fn push_register(
    shape: Shape,
    declared: Declared,
    items: &mut Items<Item>,
) -> Result<(), NoMemory>
    ensures { OnOk result (items.new ≡ items.old ++ spelling.register_items shape declared) }
{
    let Declared { at, name, value } = declared;
    let Some(value) = value else {
        return push_declaration(shape, at, name, items);
    };
    push_declaration(shape, at, name.clone()?, items)?;
    items.push(Item::Initial { at, name, value })?;
    Ok(())
}

/// Adds the declaration of a wire's name and, right after it, an `Assign` for its value.
pub fn push_wire(shape: Shape, declared: Declared, items: &mut Items<Item>) -> Result<(), NoMemory>
    ensures { OnOk result (items.new ≡ items.old ++ spelling.wire_items shape declared) }
{
    let Declared { at, name, value } = declared;
    let Some(right) = value else {
        return push_declaration(shape, at, name, items);
    };
    push_declaration(shape, at, name.clone()?, items)?;
    let left = Left::Whole { at, name };
    items.push(Item::Assign { at, left, right })?;
    Ok(())
}

fn push_declaration(
    shape: Shape,
    at: u64,
    name: Name,
    items: &mut Items<Item>,
) -> Result<(), NoMemory>
    ensures { OnOk result (items.new ≡ items.old ++ (Decl at shape.dir shape.kind shape.range name ∷ [])) }
{
    items.push(Item::Decl {
        at,
        dir: shape.dir,
        kind: shape.kind,
        range: shape.range,
        name,
    })?;
    Ok(())
}
