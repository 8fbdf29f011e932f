//! The uses of names in what is read.
ghost use Rattle.std.specs.Prelude.{◌≡◌, ◌∷◌, [], cond, flat_map, fold, map};
ghost use Rattle.hierarchy.specs.Failures.{earlier, failure};
ghost use Rattle.vlog_tree.specs.Meaning.Uses.{expr_uses, joined};
ghost use Rattle.clock_sets.specs.Passing.{signal};
ghost use Rattle.clock_sets.specs.Sets.{is_clocked};
ghost use Rattle.clock_rules.specs.Clocks.{bad_read, stmt_reads};

use bm_base::Name;
use clock_sets::ClockedNames;
use hierarchy::Earliest;
use nets::Nets;
use vlog_tree::{Expr, Stmt};

/// Notes each use of a clocked name in an expression.
#[cycle(exprs)]
pub(crate) fn note_expr<'a>(
    names: &ClockedNames<'_, 'a>,
    nets: &Nets<'a>,
    expr: &'a Expr,
    found: &mut Earliest<'a>,
)
    ensures { found.new ≡ fold earlier found.old (flat_map (bad_read names.now nets.now) (expr_uses expr.now)) }
{
    match expr {
        Expr::Number { .. } => {}
        Expr::Whole { at, name } => note_use(names, nets, *at, name, found),
        Expr::Bit { at, name, .. } => note_use(names, nets, *at, name, found),
        Expr::Part { at, name, .. } => note_use(names, nets, *at, name, found),
        Expr::Unary { arg, .. } => note_expr(names, nets, arg.get(), found),
        Expr::Binary { left, right, .. } => {
            note_expr(names, nets, left.get(), found);
            note_expr(names, nets, right.get(), found);
        }
        Expr::Cond { cond, yes, no } => {
            note_expr(names, nets, cond.get(), found);
            note_expr(names, nets, yes.get(), found);
            note_expr(names, nets, no.get(), found);
        }
        Expr::Join(parts) => note_exprs(names, nets, parts.as_slice(), found),
        Expr::Repeat { parts, .. } => note_exprs(names, nets, parts.as_slice(), found),
    }
}

/// The same of expressions that stand one beside the other.
#[cycle(exprs)]
pub(crate) fn note_exprs<'a>(
    names: &ClockedNames<'_, 'a>,
    nets: &Nets<'a>,
    parts: &'a [Expr],
    found: &mut Earliest<'a>,
)
    ensures { found.new ≡ fold earlier found.old
        (flat_map (bad_read names.now nets.now) (joined (map expr_uses parts.now))) }
{
    for part in parts {
        note_expr(names, nets, part, found);
    }
}

fn note_use<'a>(
    names: &ClockedNames<'_, 'a>,
    nets: &Nets<'a>,
    at: u64,
    name: &'a Name,
    found: &mut Earliest<'a>,
)
    ensures { found.new ≡ fold earlier found.old
        (cond (is_clocked names.now (signal nets.now.name name.now)) (failure at nets.now.name name.now ∷ []) []) }
{
    let m = nets.module();
    if names.has(m.name.bytes(), name.bytes()) {
        found.note(at, m.name.bytes(), name.bytes());
    }
}

/// Notes each use of a clocked name in what a statement reads: in its conditions and right sides.
#[cycle(stmts)]
pub(crate) fn note_stmt<'a>(
    names: &ClockedNames<'_, 'a>,
    nets: &Nets<'a>,
    stmt: &'a Stmt,
    found: &mut Earliest<'a>,
)
    ensures { found.new ≡ fold earlier found.old (flat_map (bad_read names.now nets.now) (stmt_reads stmt.now)) }
{
    match stmt {
        Stmt::Empty => {}
        Stmt::Block(body) => note_stmts(names, nets, body.as_slice(), found),
        Stmt::If { cond, first, other } => {
            note_expr(names, nets, cond, found);
            note_stmt(names, nets, first.get(), found);
            if let Some(other) = other {
                note_stmt(names, nets, other.get(), found);
            }
        }
        Stmt::Set { right, .. } => note_expr(names, nets, right, found),
    }
}

#[cycle(stmts)]
fn note_stmts<'a>(
    names: &ClockedNames<'_, 'a>,
    nets: &Nets<'a>,
    body: &'a [Stmt],
    found: &mut Earliest<'a>,
)
    ensures { found.new ≡ fold earlier found.old
        (flat_map (bad_read names.now nets.now) (joined (map stmt_reads body.now))) }
{
    for stmt in body {
        note_stmt(names, nets, stmt, found);
    }
}
