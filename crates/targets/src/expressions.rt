//! The bits of expressions that are connected to output ports, by their numbers.
ghost use Rattle.std.specs.Prelude.{◌≡◌, ◌++◌, IfOk, OnOk, flat_map, is_some, map, true};
ghost use Rattle.targets.specs.Numbers.{assigned_bits, numbers_down};
ghost use Rattle.vlog_tree.specs.declared.design.Module.{Module};
ghost use Rattle.vlog_tree.specs.Meaning.Lefts.{target_bits};
ghost use Rattle.vlog_tree.specs.Meaning.Widths.{all_of};

use crate::Numbers;
use crate::run::{bit, part, whole};
use crate::runs::add_run;
use sqlite_items::Items;
use std::alloc::{AllocError, Global};
use vlog_tree::Expr;

/// The numbers of the bits of an expression that is a name, a select or a concatenation of these, the highest bit first.
/// What has no number has None. There are none where the expression can't be assigned.
pub fn target_numbers<N: Numbers>(
    alloc: Global,
    numbers: &N,
    expr: &Expr,
) -> Result<Items<Option<usize>>, AllocError>
    ensures { IfOk result (λ list. list
        ≡ numbers_down (N.number_of numbers.now) (assigned_bits (N.module_of numbers.now) expr.now)) }
{
    let mut list = Items::new(alloc);
    if !is_target(expr) {
        return Ok(list);
    }
    add_target(&mut list, numbers, expr)?;
    Ok(list)
}

// Whether the expression can be assigned.
#[cycle(tests)]
fn is_target(expr: &Expr) -> bool
    ensures { (m : Module) → result ≡ is_some (target_bits m expr.now) }
{
    match expr {
        Expr::Whole { .. } | Expr::Bit { .. } | Expr::Part { .. } => true,
        Expr::Join(parts) => are_targets(parts.as_slice()),
        _ => false,
    }
}

#[cycle(tests)]
fn are_targets(parts: &[Expr]) -> bool
    ensures { (m : Module) → result ≡ is_some (all_of (map (target_bits m) parts.now)) }
{
    for part in parts {
        if !is_target(part) {
            return false;
        }
    }
    true
}

// Adds the numbers of the bits of an expression, if it can be assigned.
#[cycle(targets)]
fn add_target<N: Numbers>(
    list: &mut Items<Option<usize>>,
    numbers: &N,
    expr: &Expr,
) -> Result<(), AllocError>
    ensures { OnOk result (is_some (target_bits (N.module_of numbers.now) expr.now) ≡ true → list.new ≡ list.old
        ++ numbers_down (N.number_of numbers.now) (assigned_bits (N.module_of numbers.now) expr.now)) }
{
    match expr {
        Expr::Whole { name, .. } => { add_run(list, numbers, name, whole(numbers.nets(), name)) }
        Expr::Bit { name, index, .. } => {
            add_run(list, numbers, name, bit(numbers.nets(), name, *index))
        }
        Expr::Part { name, range, .. } => {
            add_run(list, numbers, name, part(numbers.nets(), name, *range))
        }
        Expr::Join(parts) => add_targets(list, numbers, parts.as_slice()),
        _ => Ok(()),
    }
}

#[cycle(targets)]
fn add_targets<N: Numbers>(
    list: &mut Items<Option<usize>>,
    numbers: &N,
    parts: &[Expr],
) -> Result<(), AllocError>
    ensures { OnOk result (is_some (all_of (map (target_bits (N.module_of numbers.now)) parts.now)) ≡ true
        → list.new ≡ list.old ++ flat_map
        (λ part. numbers_down (N.number_of numbers.now) (assigned_bits (N.module_of numbers.now) part)) parts.now) }
{
    for part in parts {
        add_target(list, numbers, part)?;
    }
    Ok(())
}
