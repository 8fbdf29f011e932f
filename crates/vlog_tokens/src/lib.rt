//! What the tokens of a netlist are (IEEE 1364-2005, clause 3): the types and the definitions that lexer and grammar
//! share.
#![tactic(auto)]

mod class;
mod row;
mod token;

pub use class::Class;
pub use row::Row;
pub use token::{Token, TokenKind};
