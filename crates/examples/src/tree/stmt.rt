use super::expr::put_expr;
use super::left::put_left;
use std::alloc::AllocError;
use vlog_tree::{Expr, Left, Stmt};

/// Adds a statement.
pub fn put_stmt(text: &mut String, stmt: &Stmt) -> Result<(), AllocError> {
    match stmt {
        Stmt::Empty => text.push(';'),
        Stmt::Block(inner) => {
            text.push_str("begin ")?;
            for stmt in inner.as_slice() {
                put_stmt(text, stmt)?;
                text.push(' ')?;
            }
            text.push_str("end")
        }
        Stmt::If { cond, first, other } => {
            put_condition(text, cond)?;
            put_stmt(text, first.get())?;
            match other {
                None => Ok(()),
                Some(other) => {
                    text.push_str(" else ")?;
                    put_stmt(text, other.get())
                }
            }
        }
        Stmt::Set { at, left, right } => put_set(text, *at, left, right),
    }
}

fn put_condition(text: &mut String, cond: &Expr) -> Result<(), AllocError> {
    text.push_str("if (")?;
    put_expr(text, cond)?;
    text.push_str(") ")
}

fn put_set(text: &mut String, at: u64, left: &Left, right: &Expr) -> Result<(), AllocError> {
    put_left(text, left)?;
    write!(text, " <=@{at} ")?;
    put_expr(text, right)?;
    text.push(';')
}
