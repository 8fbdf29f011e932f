//! Left sides and expressions that are whole names of one bit.
ghost use Rattle.std.specs.Prelude.{◌≡◌, cond, Some, None};
ghost use Rattle.std.specs.Option.{option_map};
ghost use Rattle.clock_sets.specs.Passing.{one_bit, plain_left, plain_name};

use bm_base::Name;
use nets::Nets;
use vlog_tree::{Expr, Left};

/// The name, where the left side is a whole name of one bit.
pub fn plain_left<'a>(nets: &Nets<'a>, left: &'a Left) -> Option<&'a [u8]>
    ensures { option_map (λ name. name.now) result ≡ plain_left nets.now left.now }
{
    match left {
        Left::Whole { name, .. } => one_bit(nets, name),
        _ => None,
    }
}

/// The name, where the expression is a whole name of one bit.
pub fn plain_name<'a>(nets: &Nets<'a>, expr: &'a Expr) -> Option<&'a [u8]>
    ensures { option_map (λ name. name.now) result ≡ plain_name nets.now expr.now }
{
    match expr {
        Expr::Whole { name, .. } => one_bit(nets, name),
        _ => None,
    }
}

fn one_bit<'a>(nets: &Nets<'a>, name: &'a Name) -> Option<&'a [u8]>
    ensures { option_map (λ name. name.now) result ≡ one_bit nets.now name.now }
{
    if nets.is_one_bit(name.bytes()) {
        Some(name.bytes())
    } else {
        None
    }
}
