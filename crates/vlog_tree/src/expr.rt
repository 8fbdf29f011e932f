use bm_base::{Bits, Name, Range};
use sqlite_items::{Boxed, Items};

/// A unary operator (IEEE 1364-2005, clauses 5.1.9 to 5.1.11).
#[derive(Clone, Copy, Debug, PartialEq, Eq)]
pub enum UnOp {
    /// `~`
    Inv,
    /// `!`
    Not,
    /// `&`
    RedAnd,
    /// `~&`
    RedNand,
    /// `|`
    RedOr,
    /// `~|`
    RedNor,
    /// `^`
    RedXor,
    /// `~^` or `^~`
    RedXnor,
}

/// A binary operator (IEEE 1364-2005, clauses 5.1.8 to 5.1.10).
#[derive(Clone, Copy, Debug, PartialEq, Eq)]
pub enum BinOp {
    /// `&`
    And,
    /// `|`
    Or,
    /// `^`
    Xor,
    /// `~^` or `^~`
    Xnor,
    /// `&&`
    LogAnd,
    /// `||`
    LogOr,
    /// `==`
    Eq,
    /// `!=`
    Ne,
}

/// An expression (IEEE 1364-2005, clause 5). Parentheses are gone.
#[derive(Debug, Drop)]
pub enum Expr {
    /// The bits of a number, the least first.
    Number {
        at: u64,
        bits: Bits,
    },
    Whole {
        at: u64,
        name: Name,
    },
    Bit {
        at: u64,
        name: Name,
        index: u32,
    },
    Part {
        at: u64,
        name: Name,
        range: Range,
    },
    Unary {
        op: UnOp,
        arg: Boxed<Expr>,
    },
    Binary {
        op: BinOp,
        left: Boxed<Expr>,
        right: Boxed<Expr>,
    },
    Cond {
        cond: Boxed<Expr>,
        yes: Boxed<Expr>,
        no: Boxed<Expr>,
    },
    /// A concatenation, the leftmost part first.
    Join(Items<Expr>),
    /// A replication of a concatenation.
    Repeat {
        count: u32,
        parts: Items<Expr>,
    },
}
