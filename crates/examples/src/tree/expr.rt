use super::name::{comma_before, put_bit, put_part, put_whole};
use bm_base::Bits;
use std::alloc::AllocError;
use vlog_tree::{BinOp, Expr, UnOp};

/// Adds an expression.
pub fn put_expr(text: &mut String, expr: &Expr) -> Result<(), AllocError> {
    match expr {
        Expr::Number { at, bits } => put_number(text, *at, bits),
        Expr::Whole { at, name } => put_whole(text, *at, name),
        Expr::Bit { at, name, index } => put_bit(text, *at, name, *index),
        Expr::Part { at, name, range } => put_part(text, *at, name, *range),
        Expr::Unary { op, arg } => {
            write!(text, "({} ", unary_mark(*op))?;
            put_expr(text, arg.get())?;
            text.push(')')
        }
        Expr::Binary { op, left, right } => {
            text.push('(')?;
            put_expr(text, left.get())?;
            write!(text, " {} ", binary_mark(*op))?;
            put_expr(text, right.get())?;
            text.push(')')
        }
        Expr::Cond { cond, yes, no } => {
            text.push('(')?;
            put_expr(text, cond.get())?;
            text.push_str(" ? ")?;
            put_expr(text, yes.get())?;
            text.push_str(" : ")?;
            put_expr(text, no.get())?;
            text.push(')')
        }
        Expr::Join(parts) => {
            text.push('{')?;
            for (number, part) in parts.as_slice().iter().enumerate() {
                text.push_str(comma_before(number))?;
                put_expr(text, part)?;
            }
            text.push('}')
        }
        Expr::Repeat { count, parts } => {
            write!(text, "{{{count}{{")?;
            for (number, part) in parts.as_slice().iter().enumerate() {
                text.push_str(comma_before(number))?;
                put_expr(text, part)?;
            }
            text.push_str("}}")
        }
    }
}

// A number as its width and its value in hexadecimal, without zeros in front.
fn put_number(text: &mut String, at: u64, bits: &Bits) -> Result<(), AllocError> {
    write!(text, "{}'h", bits.len())?;
    let mut begun = false;
    for place in (0..bits.len().div_ceil(4)).rev() {
        let digit = digit(bits, place);
        begun = begun || digit != 0 || place == 0;
        if begun {
            write!(text, "{digit:x}")?;
        }
    }
    write!(text, "@{at}")
}

// The hexadecimal digit at a place, from the least on.
fn digit(bits: &Bits, place: usize) -> u8 {
    let lowest = place.saturating_mul(4);
    let mut digit: u8 = 0;
    for i in 0..4usize {
        let at = lowest.saturating_add(i);
        if at < bits.len() && bits.get(at) {
            digit |= 1 << i;
        }
    }
    digit
}

fn unary_mark(op: UnOp) -> &'static str {
    match op {
        UnOp::Inv => "~",
        UnOp::Not => "!",
        UnOp::RedAnd => "&",
        UnOp::RedNand => "~&",
        UnOp::RedOr => "|",
        UnOp::RedNor => "~|",
        UnOp::RedXor => "^",
        UnOp::RedXnor => "~^",
    }
}

fn binary_mark(op: BinOp) -> &'static str {
    match op {
        BinOp::And => "&",
        BinOp::Or => "|",
        BinOp::Xor => "^",
        BinOp::Xnor => "~^",
        BinOp::LogAnd => "&&",
        BinOp::LogOr => "||",
        BinOp::Eq => "==",
        BinOp::Ne => "!=",
    }
}
