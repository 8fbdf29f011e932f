//! The tokens of a netlist (IEEE 1364-2005, clause 3): which bytes of a source are blank, which are one token, and what
//! an attribute drops.
#![tactic(auto)]

mod class;
mod fault;
mod form;
mod kept;
pub mod laws;
mod lexer;
mod row;
mod table;

pub use fault::LexFault;
pub use lexer::{Tokens, lex};
