use crate::{Expr, Left};
use sqlite_items::{Boxed, Items};

/// A statement of an `always` (IEEE 1364-2005, clause 9).
#[derive(Debug, Drop)]
pub enum Stmt {
    /// A lone semicolon.
    Empty,
    /// `begin .. end`.
    Block(Items<Stmt>),
    /// An `else` belongs to the nearest `if` without one.
    If {
        cond: Expr,
        first: Boxed<Stmt>,
        other: Option<Boxed<Stmt>>,
    },
    /// A nonblocking assignment.
    Set {
        at: u64,
        left: Left,
        right: Expr,
    },
}
