//! The rules on selects and widths.
ghost use Rattle.std.specs.Prelude.{◌≡◌, ◌++◌, fold, flat_map, map};
ghost use Rattle.hierarchy.specs.Failures.{earlier};
ghost use Rattle.width_rules.specs.Capped.{joined};
ghost use Rattle.width_rules.specs.Widths.{bad_widths, bad_widths_in, in_expr, in_left, in_link, in_stmt};

use crate::inside::{note_expr, note_exprs, note_left, note_lefts};
use hierarchy::Earliest;
use nets::Nets;
use vlog_tree::{Expr, Item, Left, Link, Stmt};

/// Notes each select that the range of its name does not have or that runs against it, and each expression and left
/// side that is wider than 65,536 bits.
pub fn note_bad_widths<'a>(nets: &Nets<'a>, found: &mut Earliest<'a>)
    ensures { found.new ≡ fold earlier found.old (bad_widths nets.now) }
{
    let items = nets.module().items.as_slice();
    for item in items {
        note_in_item(nets, found, item);
    }
}

fn note_in_item<'a>(nets: &Nets<'a>, found: &mut Earliest<'a>, item: &'a Item)
    ensures { found.new ≡ fold earlier found.old (bad_widths_in nets.now item.now) }
{
    match item {
        Item::Decl { .. } => {}
        Item::Assign { left, right, .. } => {
            note_left(nets, found, left);
            note_expr(nets, found, right);
        }
        Item::Gate { outs, ins, .. } => note_in_gate(nets, found, outs.as_slice(), ins.as_slice()),
        Item::Instance { links, .. } => note_in_links(nets, found, links.as_slice()),
        Item::Always { body, .. } => note_in_stmt(nets, found, body),
        Item::Initial { value, .. } => {
            note_expr(nets, found, value);
        }
    }
}

fn note_in_gate<'a>(nets: &Nets<'a>, found: &mut Earliest<'a>, outs: &'a [Left], ins: &'a [Expr])
    ensures { found.new
        ≡ fold earlier found.old (flat_map (in_left nets.now) outs.now ++ flat_map (in_expr nets.now) ins.now) }
{
    note_lefts(nets, found, outs);
    note_exprs(nets, found, ins);
}

fn note_in_links<'a>(nets: &Nets<'a>, found: &mut Earliest<'a>, links: &'a [Link])
    ensures { found.new ≡ fold earlier found.old (flat_map (in_link nets.now) links.now) }
{
    for link in links {
        if let Some(expr) = &link.expr {
            note_expr(nets, found, expr);
        }
    }
}

#[cycle(stmts)]
fn note_in_stmt<'a>(nets: &Nets<'a>, found: &mut Earliest<'a>, stmt: &'a Stmt)
    ensures { found.new ≡ fold earlier found.old (in_stmt nets.now stmt.now) }
{
    match stmt {
        Stmt::Empty => {}
        Stmt::Block(body) => note_in_stmts(nets, found, body.as_slice()),
        Stmt::If { cond, first, other } => {
            note_expr(nets, found, cond);
            note_in_stmt(nets, found, first.get());
            if let Some(other) = other {
                note_in_stmt(nets, found, other.get());
            }
        }
        Stmt::Set { left, right, .. } => {
            note_left(nets, found, left);
            note_expr(nets, found, right);
        }
    }
}

#[cycle(stmts)]
fn note_in_stmts<'a>(nets: &Nets<'a>, found: &mut Earliest<'a>, body: &'a [Stmt])
    ensures { found.new ≡ fold earlier found.old (joined (map (in_stmt nets.now) body.now)) }
{
    for stmt in body {
        note_in_stmt(nets, found, stmt);
    }
}
