//! What left sides assign, and expressions that are connected to output ports.
ghost use Rattle.std.specs.Prelude.{◌≡◌, ◌++◌, OnOk, map};
ghost use Rattle.driver_rules.specs.Doubles.{left_assigned, target_assigned};
ghost use Rattle.driver_rules.specs.Groups.{joined};
ghost use Rattle.driver_rules.specs.Selects.{AreNumbered, shown};

use crate::select::Select;
use crate::selects::{add_bit, add_part, add_whole};
use bm_base::NoMemory;
use nets::Nets;
use sqlite_items::Items;
use vlog_tree::{Expr, Left};

/// Adds the selects of a left side, in source order.
#[cycle(lefts)]
pub(crate) fn add_left<'a>(
    selects: &mut Items<Select<'a>>,
    nets: &Nets<'a>,
    left: &'a Left,
) -> Result<(), NoMemory>
    ensures shown { OnOk result (shown selects.new ≡ shown selects.old ++ left_assigned nets.now left.now) }
    ensures numbered { OnOk result (AreNumbered nets.now selects.old → AreNumbered nets.now selects.new) }
{
    match left {
        Left::Whole { at, name } => add_whole(selects, nets, *at, name),
        Left::Bit { at, name, index } => add_bit(selects, nets, *at, name, *index),
        Left::Part { at, name, range } => add_part(selects, nets, *at, name, *range),
        Left::Join(parts) => add_lefts(selects, nets, parts.as_slice()),
    }
}

/// The same of several left sides.
#[cycle(lefts)]
pub(crate) fn add_lefts<'a>(
    selects: &mut Items<Select<'a>>,
    nets: &Nets<'a>,
    lefts: &'a [Left],
) -> Result<(), NoMemory>
    ensures shown { OnOk result (shown selects.new ≡ shown selects.old ++ joined (map (left_assigned nets.now) lefts.now)) }
    ensures numbered { OnOk result (AreNumbered nets.now selects.old → AreNumbered nets.now selects.new) }
{
    for left in lefts {
        add_left(selects, nets, left)?;
    }
    Ok(())
}

/// Adds the selects of an expression that is connected to an output port. Only a name, a select or a concatenation of
/// these can be assigned.
#[cycle(targets)]
pub(crate) fn add_target<'a>(
    selects: &mut Items<Select<'a>>,
    nets: &Nets<'a>,
    expr: &'a Expr,
) -> Result<(), NoMemory>
    ensures shown { OnOk result (shown selects.new ≡ shown selects.old ++ target_assigned nets.now expr.now) }
    ensures numbered { OnOk result (AreNumbered nets.now selects.old → AreNumbered nets.now selects.new) }
{
    match expr {
        Expr::Whole { at, name } => add_whole(selects, nets, *at, name),
        Expr::Bit { at, name, index } => add_bit(selects, nets, *at, name, *index),
        Expr::Part { at, name, range } => add_part(selects, nets, *at, name, *range),
        Expr::Join(parts) => add_targets(selects, nets, parts.as_slice()),
        Expr::Number { .. } => Ok(()),
        Expr::Unary { .. } => Ok(()),
        Expr::Binary { .. } => Ok(()),
        Expr::Cond { .. } => Ok(()),
        Expr::Repeat { .. } => Ok(()),
    }
}

#[cycle(targets)]
fn add_targets<'a>(
    selects: &mut Items<Select<'a>>,
    nets: &Nets<'a>,
    parts: &'a [Expr],
) -> Result<(), NoMemory>
    ensures shown { OnOk result (shown selects.new ≡ shown selects.old ++ joined (map (target_assigned nets.now) parts.now)) }
    ensures numbered { OnOk result (AreNumbered nets.now selects.old → AreNumbered nets.now selects.new) }
{
    for part in parts {
        add_target(selects, nets, part)?;
    }
    Ok(())
}
