//! Names that stand whole, without a select.
ghost use Rattle.std.specs.Prelude.{◌≡◌};
ghost use Rattle.std.specs.List.{list_any};
ghost use Rattle.vlog_tree.specs.WholeUses.{expr_has, left_has, link_has};

use crate::{Expr, Left, Link};

/// Whether the name stands whole in the expression.
#[cycle(expr_has)]
#[tactic(auto, using(crate::proofs::UseLemmas::whole_in_two, crate::proofs::UseLemmas::expr_in_join, crate::proofs::UseLemmas::expr_in_repeat))]
pub fn expr_has(expr: &Expr, name: &[u8]) -> bool
    ensures { result ≡ expr_has name.now expr.now }
{
    match expr {
        Expr::Whole { name: other, .. } => other.bytes() == name,
        Expr::Number { .. } | Expr::Bit { .. } | Expr::Part { .. } => false,
        Expr::Unary { arg, .. } => expr_has(arg.get(), name),
        Expr::Binary { left, right, .. } => {
            expr_has(left.get(), name) || expr_has(right.get(), name)
        }
        Expr::Cond { cond, yes, no } => {
            expr_has(cond.get(), name) || expr_has(yes.get(), name) || expr_has(no.get(), name)
        }
        Expr::Join(parts) => any_expr_has(parts.as_slice(), name),
        Expr::Repeat { parts, .. } => any_expr_has(parts.as_slice(), name),
    }
}

/// Whether the name stands whole in some expression.
#[cycle(expr_has)]
pub fn any_expr_has(exprs: &[Expr], name: &[u8]) -> bool
    ensures { result ≡ list_any (expr_has name.now) exprs.now }
{
    for expr in exprs {
        if expr_has(expr, name) {
            return true;
        }
    }
    false
}

/// Whether the name stands whole in the left side.
#[cycle(left_has)]
#[tactic(auto, using(crate::proofs::UseLemmas::left_in_join))]
fn left_has(left: &Left, name: &[u8]) -> bool
    ensures { result ≡ left_has name.now left.now }
{
    match left {
        Left::Whole { name: other, .. } => other.bytes() == name,
        Left::Bit { .. } | Left::Part { .. } => false,
        Left::Join(parts) => any_left_has(parts.as_slice(), name),
    }
}

/// Whether the name stands whole in some left side.
#[cycle(left_has)]
pub fn any_left_has(lefts: &[Left], name: &[u8]) -> bool
    ensures { result ≡ list_any (left_has name.now) lefts.now }
{
    for left in lefts {
        if left_has(left, name) {
            return true;
        }
    }
    false
}

/// Whether the name stands whole in some port connection.
pub fn any_link_has(links: &[Link], name: &[u8]) -> bool
    ensures { result ≡ list_any (link_has name.now) links.now }
{
    links.iter().any(|link| link_has(link, name))
}

fn link_has(link: &Link, name: &[u8]) -> bool
    ensures { result ≡ link_has name.now link.now }
{
    match &link.expr {
        Some(expr) => expr_has(expr, name),
        None => false,
    }
}
