//! The names of expressions.
ghost use Rattle.std.specs.Prelude.{◌≡◌, flat_map, fold};
ghost use Rattle.hierarchy.specs.Failures.{earlier};
ghost use Rattle.target_rules.specs.Judged.{bad_expr};

use crate::assignment::Assignment;
use hierarchy::Earliest;
use nets::Nets;
use vlog_tree::Expr;

/// Notes each name of an expression that may not be assigned so.
#[cycle(exprs)]
#[tactic(auto, using(crate::proofs::UseLemmas::in_two, crate::proofs::UseLemmas::expr_join, crate::proofs::UseLemmas::expr_repeat))]
pub(crate) fn note_expr<'a>(
    way: Assignment,
    nets: &Nets<'a>,
    found: &mut Earliest<'a>,
    expr: &'a Expr,
)
    ensures { found.new ≡ fold earlier found.old (bad_expr way nets.now expr.now) }
{
    match expr {
        Expr::Number { .. } => {}
        Expr::Whole { at, name } => way.note_name(nets, found, *at, name),
        Expr::Bit { at, name, .. } => way.note_name(nets, found, *at, name),
        Expr::Part { at, name, .. } => way.note_name(nets, found, *at, name),
        Expr::Unary { arg, .. } => note_expr(way, nets, found, arg.get()),
        Expr::Binary { left, right, .. } => {
            note_expr(way, nets, found, left.get());
            note_expr(way, nets, found, right.get());
        }
        Expr::Cond { cond, yes, no } => {
            note_expr(way, nets, found, cond.get());
            note_expr(way, nets, found, yes.get());
            note_expr(way, nets, found, no.get());
        }
        Expr::Join(parts) => note_exprs(way, nets, found, parts.as_slice()),
        Expr::Repeat { parts, .. } => note_exprs(way, nets, found, parts.as_slice()),
    }
}

#[cycle(exprs)]
fn note_exprs<'a>(way: Assignment, nets: &Nets<'a>, found: &mut Earliest<'a>, exprs: &'a [Expr])
    ensures { found.new ≡ fold earlier found.old (flat_map (bad_expr way nets.now) exprs.now) }
{
    for expr in exprs {
        note_expr(way, nets, found, expr);
    }
}
