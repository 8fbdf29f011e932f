use crate::{Expr, Left, Stmt};
use bm_base::{Name, Range};
use sqlite_items::Items;

/// The direction of a port (IEEE 1364-2005, clause 12.3.3).
#[derive(Clone, Copy, Debug, PartialEq, Eq)]
pub enum Dir {
    Input,
    Output,
}

/// What a declaration says of its net: `Plain` where it says neither `wire` nor `reg`.
#[derive(Clone, Copy, Debug, PartialEq, Eq)]
pub enum NetKind {
    Plain,
    Wire,
    Reg,
}

/// A gate primitive (IEEE 1364-2005, clauses 7.2 and 7.3).
#[derive(Clone, Copy, Debug, PartialEq, Eq)]
pub enum GateKind {
    And,
    Nand,
    Or,
    Nor,
    Xor,
    Xnor,
    Buf,
    Not,
}

/// One declared name, one assignment, one gate, one instance or one process: an item of the source that lists several
/// gives one of these for each.
#[derive(Debug, Drop)]
pub enum Item {
    /// A name that is declared. One that is declared with a value gives this and, right after it, an `Assign` for a
    /// wire or an `Initial` for a register.
    Decl {
        at: u64,
        dir: Option<Dir>,
        kind: NetKind,
        range: Option<Range>,
        name: Name,
    },
    /// A continuous assignment.
    Assign {
        at: u64,
        left: Left,
        right: Expr,
    },
    /// A gate: its outputs and then its inputs, each as they stand.
    Gate {
        at: u64,
        kind: GateKind,
        name: Option<Name>,
        outs: Items<Left>,
        ins: Items<Expr>,
    },
    /// An instance of a module.
    Instance {
        at: u64,
        module: Name,
        name: Name,
        links: Items<Link>,
    },
    /// `always @(posedge clock) body`.
    Always {
        at: u64,
        clock: Name,
        body: Stmt,
    },
    /// `initial name = value;`, where the value is a number.
    Initial {
        at: u64,
        name: Name,
        value: Expr,
    },
}

/// One port connection: ordered where it has no port, and blank where it has no expression. A blank ordered connection
/// has the place of the comma or parenthesis after it.
#[derive(Debug, Drop)]
pub struct Link {
    pub at: u64,
    pub port: Option<Name>,
    pub expr: Option<Expr>,
}
