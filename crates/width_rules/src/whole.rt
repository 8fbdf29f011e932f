//! Failures of whole expressions.
ghost use Rattle.std.specs.Prelude.{◌≡◌};
ghost use Rattle.hierarchy.specs.Failures.{earlier};
ghost use Rattle.width_rules.specs.Widths.{expr_shape, whole_failure};

use crate::inside::shape_of_expr;
use hierarchy::Earliest;
use nets::Nets;
use vlog_tree::Expr;

/// Notes a failure of the whole expression: it stands at the first name or number in it, and its name is the first
/// name in it, or the empty name where it has none.
pub fn note_whole<'a>(nets: &Nets<'a>, found: &mut Earliest<'a>, expr: &'a Expr)
    ensures { found.new ≡ earlier found.old (whole_failure nets.now (expr_shape nets.now expr.now)) }
{
    shape_of_expr(nets, expr).note(nets, found);
}
