//! The syntax tree of a netlist: structural Verilog of IEEE 1364-2005, in the profile that the documents give.
//!
//! Each `at` is the byte offset, from 0, of the first token of its part. Lists are `Items` and children `Boxed`, so
//! that contracts see a tree as plain data and can compare it with what a definition computes. Which bytes spell a
//! tree, and what it means as a machine, is defined in `specs/`. Here the ranges of a module's names and the widths of
//! expressions are computed.
#![tactic(auto)]

mod design;
mod expr;
mod implicit;
mod item;
mod key;
pub mod laws;
mod left;
mod ranges;
mod stmt;
mod whole_uses;
mod widths;

pub use design::{Design, Module};
pub use expr::{BinOp, Expr, UnOp};
pub use item::{Dir, GateKind, Item, Link, NetKind};
pub use key::Key;
pub use left::Left;
pub use ranges::Ranges;
pub use stmt::Stmt;
pub use widths::{width, width_by};
