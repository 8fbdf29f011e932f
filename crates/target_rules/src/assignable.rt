//! Which expressions may be assigned.
ghost use Rattle.std.specs.Prelude.{◌≡◌, is_some};
ghost use Rattle.std.specs.List.{list_all};
ghost use Rattle.vlog_tree.specs.declared.design.Module.{Module};
ghost use Rattle.vlog_tree.specs.Meaning.Lefts.{target_bits};

use vlog_tree::Expr;

/// Whether the expression is a name, a select or a concatenation of these.
#[cycle(assignable)]
pub(crate) fn is_assignable(expr: &Expr) -> bool
    ensures { (m : Module) → result ≡ is_some (target_bits m expr.now) }
{
    match expr {
        Expr::Whole { .. } | Expr::Bit { .. } | Expr::Part { .. } => true,
        Expr::Join(parts) => are_assignable(parts.as_slice()),
        Expr::Number { .. }
        | Expr::Unary { .. }
        | Expr::Binary { .. }
        | Expr::Cond { .. }
        | Expr::Repeat { .. } => false,
    }
}

#[cycle(assignable)]
fn are_assignable(parts: &[Expr]) -> bool
    ensures { (m : Module) → result ≡ list_all (λ part. is_some (target_bits m part)) parts.now }
{
    for part in parts {
        if !is_assignable(part) {
            return false;
        }
    }
    true
}
