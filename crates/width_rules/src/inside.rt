//! What is wrong inside of expressions and left sides.
ghost use Rattle.std.specs.Prelude.{◌≡◌, fold, flat_map, map, None, Some};
ghost use Rattle.hierarchy.specs.Failures.{earlier};
ghost use Rattle.vlog_tree.specs.Meaning.Widths.{binary_width, unary_width};
ghost use Rattle.width_rules.specs.Capped.{beside_those, bit_shape, cap, capped, number_shape, part_shape, row_of, whole_shape};
ghost use Rattle.width_rules.specs.Widths.{expr_shape, failures_of, in_expr, in_left, left_shape, whole_width};

use crate::selects::{capped_span, has_bit, has_part};
use crate::shape::Shape;
use bm_base::{Bits, Name, Range};
use hierarchy::Earliest;
use nets::Nets;
use vlog_tree::{BinOp, Expr, Left, Ranges, UnOp};

fn note_number<'a>(nets: &Nets<'a>, found: &mut Earliest<'a>, at: u64, bits: &Bits) -> Shape<'a>
    ensures shape { result ≡ capped (number_shape nets.now at bits.now) }
    ensures failures { found.new ≡ fold earlier found.old (number_shape nets.now at bits.now).failures }
{
    Shape::of_number(at, bits.len()).judged(nets, found)
}

fn note_whole<'a>(nets: &Nets<'a>, found: &mut Earliest<'a>, at: u64, name: &'a Name) -> Shape<'a>
    ensures shape { result ≡ capped (whole_shape nets.now at name.now) }
    ensures failures { found.new ≡ fold earlier found.old (whole_shape nets.now at name.now).failures }
{
    Shape::of_name(at, name.bytes(), whole_width(nets, name)).judged(nets, found)
}

// How many bits a name has, but no more than right above the greatest width; 0 where it is neither declared nor
// implicit.
fn whole_width(nets: &Nets<'_>, name: &Name) -> usize
    ensures { result ≡ cap (whole_width nets.now name.now) }
{
    match nets.range_of(name) {
        Some(range) => capped_span(range),
        None => 0,
    }
}

fn note_bit<'a>(
    nets: &Nets<'a>,
    found: &mut Earliest<'a>,
    at: u64,
    name: &'a Name,
    index: u32,
) -> Shape<'a>
    ensures shape { result ≡ capped (bit_shape nets.now at name.now index) }
    ensures failures { found.new ≡ fold earlier found.old (bit_shape nets.now at name.now index).failures }
{
    if !has_bit(nets, name, index) {
        found.note(at, nets.module().name.bytes(), name.bytes());
    }
    Shape::of_name(at, name.bytes(), 1)
}

fn note_part<'a>(
    nets: &Nets<'a>,
    found: &mut Earliest<'a>,
    at: u64,
    name: &'a Name,
    part: Range,
) -> Shape<'a>
    ensures shape { result ≡ capped (part_shape nets.now at name.now part) }
    ensures failures { found.new ≡ fold earlier found.old (part_shape nets.now at name.now part).failures }
{
    if !has_part(nets, name, part) {
        found.note(at, nets.module().name.bytes(), name.bytes());
    }
    Shape::of_name(at, name.bytes(), capped_span(part)).judged(nets, found)
}

fn unary_width(op: UnOp, width: usize) -> usize
    ensures { result ≡ unary_width op width }
{
    match op {
        UnOp::Inv => width,
        _ => 1,
    }
}

fn binary_width(op: BinOp, left: usize, right: usize) -> usize
    ensures { result ≡ binary_width op left right }
{
    match op {
        BinOp::And | BinOp::Or | BinOp::Xor | BinOp::Xnor => left.max(right),
        _ => 1,
    }
}

/// Notes what is wrong inside of an expression, and gives its shape.
#[cycle(exprs)]
pub(crate) fn note_expr<'a>(nets: &Nets<'a>, found: &mut Earliest<'a>, expr: &'a Expr) -> Shape<'a>
    ensures shape { result ≡ capped (expr_shape nets.now expr.now) }
    ensures failures { found.new ≡ fold earlier found.old (in_expr nets.now expr.now) }
{
    match expr {
        Expr::Number { at, bits } => note_number(nets, found, *at, bits),
        Expr::Whole { at, name } => note_whole(nets, found, *at, name),
        Expr::Bit { at, name, index } => note_bit(nets, found, *at, name, *index),
        Expr::Part { at, name, range } => note_part(nets, found, *at, name, *range),
        Expr::Unary { op, arg } => {
            let arg = note_expr(nets, found, arg.get());
            arg.with_width(unary_width(*op, arg.width))
                .judged(nets, found)
        }
        Expr::Binary { op, left, right } => {
            let left = note_expr(nets, found, left.get());
            let right = note_expr(nets, found, right.get());
            let width = binary_width(*op, left.width, right.width);
            left.beside(&right).with_width(width).judged(nets, found)
        }
        Expr::Cond { cond, yes, no } => {
            let condition = note_expr(nets, found, cond.get());
            let first = note_expr(nets, found, yes.get());
            let second = note_expr(nets, found, no.get());
            condition
                .beside(&first.beside(&second))
                .with_width(first.width.max(second.width))
                .judged(nets, found)
        }
        Expr::Join(parts) => note_exprs(nets, found, parts.as_slice()).judged(nets, found),
        Expr::Repeat { count, parts } => note_exprs(nets, found, parts.as_slice())
            .repeated(*count)
            .judged(nets, found),
    }
}

/// The same of expressions that stand one beside the other.
#[cycle(exprs)]
pub(crate) fn note_exprs<'a>(
    nets: &Nets<'a>,
    found: &mut Earliest<'a>,
    parts: &'a [Expr],
) -> Shape<'a>
    ensures shape { result ≡ capped (row_of (map (expr_shape nets.now) parts.now)) }
    ensures failures { found.new ≡ fold earlier found.old (failures_of (map (expr_shape nets.now) parts.now)) }
{
    let mut row = None;
    for part in parts {
        let part = note_expr(nets, found, part);
        row = Some(beside_those(row, part));
    }
    row.unwrap_or(Shape {
        at: 0,
        name: None,
        width: 0,
    })
}

fn beside_those<'a>(parts: Option<Shape<'a>>, part: Shape<'a>) -> Shape<'a>
    ensures { Some result ≡ beside_those parts.entry part.entry }
{
    match parts {
        Some(parts) => parts.beside(&part),
        None => part,
    }
}

/// Notes what is wrong inside of a left side, and gives its shape.
#[cycle(lefts)]
pub(crate) fn note_left<'a>(nets: &Nets<'a>, found: &mut Earliest<'a>, left: &'a Left) -> Shape<'a>
    ensures shape { result ≡ capped (left_shape nets.now left.now) }
    ensures failures { found.new ≡ fold earlier found.old (in_left nets.now left.now) }
{
    match left {
        Left::Whole { at, name } => note_whole(nets, found, *at, name),
        Left::Bit { at, name, index } => note_bit(nets, found, *at, name, *index),
        Left::Part { at, name, range } => note_part(nets, found, *at, name, *range),
        Left::Join(parts) => note_lefts(nets, found, parts.as_slice()).judged(nets, found),
    }
}

/// The same of left sides that stand one beside the other.
#[cycle(lefts)]
pub(crate) fn note_lefts<'a>(
    nets: &Nets<'a>,
    found: &mut Earliest<'a>,
    parts: &'a [Left],
) -> Shape<'a>
    ensures shape { result ≡ capped (row_of (map (left_shape nets.now) parts.now)) }
    ensures failures { found.new ≡ fold earlier found.old (failures_of (map (left_shape nets.now) parts.now)) }
{
    let mut row = None;
    for part in parts {
        let part = note_left(nets, found, part);
        row = Some(beside_those(row, part));
    }
    row.unwrap_or(Shape {
        at: 0,
        name: None,
        width: 0,
    })
}

/// The shape of an expression.
pub(crate) fn shape_of_expr<'a>(nets: &Nets<'a>, expr: &'a Expr) -> Shape<'a>
    ensures { result ≡ capped (expr_shape nets.now expr.now) }
{
    let mut elsewhere = Earliest::new();
    note_expr(nets, &mut elsewhere, expr)
}

/// The shape of a left side.
pub(crate) fn shape_of_left<'a>(nets: &Nets<'a>, left: &'a Left) -> Shape<'a>
    ensures { result ≡ capped (left_shape nets.now left.now) }
{
    let mut elsewhere = Earliest::new();
    note_left(nets, &mut elsewhere, left)
}
