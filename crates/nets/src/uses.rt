//! The names that an item uses, in source order.
ghost use Rattle.std.specs.Prelude.{◌≡◌, ◌∷◌, ◌++◌, [], IfOk, OnOk, flat_map, map};
ghost use Rattle.vlog_tree.specs.Meaning.Uses.{connected_uses, expr_uses, item_uses, joined, left_uses, link_uses, stmt_uses, use_of};
ghost use Rattle.nets.specs.Used.{shown};

use bm_base::{Name, NoMemory};
use sqlite_items::Items;
use std::alloc::Global;
use vlog_tree::{Expr, Item, Left, Link, Stmt};

/// A name that stands at a place of the source.
#[derive(Drop)]
pub struct Use<'a> {
    /// The byte offset.
    pub at: u64,
    pub name: &'a [u8],
    /// It stands there without a select.
    pub is_whole: bool,
}

/// The uses of names in one item, in source order.
pub fn uses_of<'a>(alloc: Global, item: &'a Item) -> Result<Items<Use<'a>>, NoMemory>
    ensures { IfOk result (λ uses. shown uses ≡ item_uses item.now) }
{
    let mut uses = Items::new(alloc);
    add_item(&mut uses, item)?;
    Ok(uses)
}

fn add_item<'a>(uses: &mut Items<Use<'a>>, item: &'a Item) -> Result<(), NoMemory>
    ensures { OnOk result (shown uses.new ≡ shown uses.old ++ item_uses item.now) }
{
    match item {
        Item::Decl { .. } => Ok(()),
        Item::Assign { left, right, .. } => {
            add_left(uses, left)?;
            add_expr(uses, right)
        }
        Item::Gate { outs, ins, .. } => add_gate(uses, outs.as_slice(), ins.as_slice()),
        Item::Instance { links, .. } => add_links(uses, links.as_slice()),
        Item::Always { at, clock, body } => {
            add_name(uses, *at, clock, true)?;
            add_stmt(uses, body)
        }
        Item::Initial { at, name, value } => {
            add_name(uses, *at, name, true)?;
            add_expr(uses, value)
        }
    }
}

fn add_name<'a>(
    uses: &mut Items<Use<'a>>,
    at: u64,
    name: &'a Name,
    is_whole: bool,
) -> Result<(), NoMemory>
    ensures { OnOk result (shown uses.new ≡ shown uses.old ++ use_of at name.now is_whole ∷ []) }
{
    uses.push(Use {
        at,
        name: name.bytes(),
        is_whole,
    })?;
    Ok(())
}

fn add_gate<'a>(
    uses: &mut Items<Use<'a>>,
    outs: &'a [Left],
    ins: &'a [Expr],
) -> Result<(), NoMemory>
    ensures { OnOk result (shown uses.new
        ≡ shown uses.old ++ (flat_map left_uses outs.now ++ flat_map expr_uses ins.now)) }
{
    add_lefts(uses, outs)?;
    add_exprs(uses, ins)
}

fn add_links<'a>(uses: &mut Items<Use<'a>>, links: &'a [Link]) -> Result<(), NoMemory>
    ensures { OnOk result (shown uses.new ≡ shown uses.old ++ flat_map link_uses links.now) }
{
    for link in links {
        if let Some(expr) = &link.expr {
            add_expr(uses, expr)?;
        }
    }
    Ok(())
}

#[cycle(exprs)]
fn add_expr<'a>(uses: &mut Items<Use<'a>>, expr: &'a Expr) -> Result<(), NoMemory>
    ensures { OnOk result (shown uses.new ≡ shown uses.old ++ expr_uses expr.now) }
{
    match expr {
        Expr::Number { .. } => Ok(()),
        Expr::Whole { at, name } => add_name(uses, *at, name, true),
        Expr::Bit { at, name, .. } => add_name(uses, *at, name, false),
        Expr::Part { at, name, .. } => add_name(uses, *at, name, false),
        Expr::Unary { arg, .. } => add_expr(uses, arg.get()),
        Expr::Binary { left, right, .. } => {
            add_expr(uses, left.get())?;
            add_expr(uses, right.get())
        }
        Expr::Cond { cond, yes, no } => {
            add_expr(uses, cond.get())?;
            add_expr(uses, yes.get())?;
            add_expr(uses, no.get())
        }
        Expr::Join(parts) => add_exprs(uses, parts.as_slice()),
        Expr::Repeat { parts, .. } => add_exprs(uses, parts.as_slice()),
    }
}

#[cycle(exprs)]
fn add_exprs<'a>(uses: &mut Items<Use<'a>>, parts: &'a [Expr]) -> Result<(), NoMemory>
    ensures { OnOk result (shown uses.new ≡ shown uses.old ++ joined (map expr_uses parts.now)) }
{
    for part in parts {
        add_expr(uses, part)?;
    }
    Ok(())
}

#[cycle(lefts)]
fn add_left<'a>(uses: &mut Items<Use<'a>>, left: &'a Left) -> Result<(), NoMemory>
    ensures { OnOk result (shown uses.new ≡ shown uses.old ++ left_uses left.now) }
{
    match left {
        Left::Whole { at, name } => add_name(uses, *at, name, true),
        Left::Bit { at, name, .. } => add_name(uses, *at, name, false),
        Left::Part { at, name, .. } => add_name(uses, *at, name, false),
        Left::Join(parts) => add_lefts(uses, parts.as_slice()),
    }
}

#[cycle(lefts)]
fn add_lefts<'a>(uses: &mut Items<Use<'a>>, parts: &'a [Left]) -> Result<(), NoMemory>
    ensures { OnOk result (shown uses.new ≡ shown uses.old ++ joined (map left_uses parts.now)) }
{
    for part in parts {
        add_left(uses, part)?;
    }
    Ok(())
}

#[cycle(stmts)]
fn add_stmt<'a>(uses: &mut Items<Use<'a>>, stmt: &'a Stmt) -> Result<(), NoMemory>
    ensures { OnOk result (shown uses.new ≡ shown uses.old ++ stmt_uses stmt.now) }
{
    match stmt {
        Stmt::Empty => Ok(()),
        Stmt::Block(body) => add_stmts(uses, body.as_slice()),
        Stmt::If { cond, first, other } => {
            add_expr(uses, cond)?;
            add_stmt(uses, first.get())?;
            match other {
                Some(other) => add_stmt(uses, other.get()),
                None => Ok(()),
            }
        }
        Stmt::Set { left, right, .. } => {
            add_left(uses, left)?;
            add_expr(uses, right)
        }
    }
}

#[cycle(stmts)]
fn add_stmts<'a>(uses: &mut Items<Use<'a>>, body: &'a [Stmt]) -> Result<(), NoMemory>
    ensures { OnOk result (shown uses.new ≡ shown uses.old ++ joined (map stmt_uses body.now)) }
{
    for stmt in body {
        add_stmt(uses, stmt)?;
    }
    Ok(())
}
