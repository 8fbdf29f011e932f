//! The width that an expression has by itself.
ghost use Rattle.std.specs.Prelude.{◌≡◌, ◌+◌, min, map, option_map, sum};
ghost use Rattle.vlog_tree.specs.Meaning.Ranges.{span};
ghost use Rattle.vlog_tree.specs.Meaning.Widths.{all_of, binary_width, greatest, unary_width, width, width_by, within};

use crate::{BinOp, Expr, Module, Ranges, UnOp};
use bm_base::Range;

// The greatest width of an expression, in bits.
const GREATEST_WIDTH: usize = 65_536;

/// The width in bits that an expression of a module has by itself, where each name is looked up by going through the
/// module. It has none exactly where a name in it is neither declared nor implicit in the module, or where it or an
/// expression inside of it is wider than 65,536 bits. A name that is declared more than once has here the width of its
/// first declaration. Takes no memory.
pub fn width(module: &Module, expr: &Expr) -> Option<u32>
    ensures { result ≡ width «module».now expr.now }
{
    width_by(module, expr)
}

/// The width in bits that an expression has by itself (IEEE 1364-2005, clause 5.4.1), over names of these ranges. It
/// has none exactly where a name in it has no range, or where it or an expression inside of it is wider than 65,536 bits.
/// Takes no memory.
#[cycle(width)]
pub fn width_by<R: Ranges>(ranges: &R, expr: &Expr) -> Option<u32>
    ensures { result ≡ width_by (R.ranges ranges.now) expr.now }
{
    match expr {
        Expr::Number { bits, .. } => within(bits.len()),
        Expr::Whole { name, .. } => within(span(ranges.range_of(name)?)),
        Expr::Bit { name, .. } => {
            ranges.range_of(name)?;
            Some(1)
        }
        Expr::Part { name, range, .. } => {
            ranges.range_of(name)?;
            within(span(*range))
        }
        Expr::Unary { op, arg } => Some(unary_width(*op, width_by(ranges, arg.get())?)),
        Expr::Binary { op, left, right } => {
            let left = width_by(ranges, left.get())?;
            let right = width_by(ranges, right.get())?;
            Some(binary_width(*op, left, right))
        }
        Expr::Cond { cond, yes, no } => {
            width_by(ranges, cond.get())?;
            let first = width_by(ranges, yes.get())?;
            let second = width_by(ranges, no.get())?;
            Some(first.max(second))
        }
        Expr::Join(parts) => within(total(ranges, parts.as_slice())?),
        Expr::Repeat { count, parts } => {
            within(*count as usize * total(ranges, parts.as_slice())?)
        }
    }
}

// The sum of the widths of parts, none where a part has none. A sum that is above the greatest width stays right above
// it.
#[cycle(width)]
fn total<R: Ranges>(ranges: &R, parts: &[Expr]) -> Option<usize>
    ensures { result ≡ option_map (λ widths. min (sum widths) (greatest + 1))
        (all_of (map (width_by (R.ranges ranges.now)) parts.now)) }
{
    let mut total = 0;
    for part in parts {
        total = capped_sum(total, width_by(ranges, part)? as usize);
    }
    Some(total)
}

// The sum, but no more than right above the greatest width.
fn capped_sum(left: usize, right: usize) -> usize
    ensures { result ≡ min (left + right) (greatest + 1) }
{
    left.saturating_add(right).min(GREATEST_WIDTH + 1)
}

fn within(width: usize) -> Option<u32>
    ensures { result ≡ within width }
{
    if width <= GREATEST_WIDTH {
        Some(width as u32)
    } else {
        None
    }
}

// How many bits a range has.
fn span(range: Range) -> usize
    ensures { result ≡ span range }
{
    range.left.abs_diff(range.right) as usize + 1
}

fn unary_width(op: UnOp, width: u32) -> u32
    ensures { result ≡ unary_width op width }
{
    match op {
        UnOp::Inv => width,
        _ => 1,
    }
}

fn binary_width(op: BinOp, left: u32, right: u32) -> u32
    ensures { result ≡ binary_width op left right }
{
    match op {
        BinOp::And | BinOp::Or | BinOp::Xor | BinOp::Xnor => left.max(right),
        _ => 1,
    }
}
