//! The grammar of a netlist (IEEE 1364-2005 in its profile): the design that tokens spell.
#![tactic(auto)]

mod chain;
mod cursor;
mod declaration;
mod declared;
mod delay;
mod expr;
mod gate;
mod header;
mod instance;
mod item;
pub mod laws;
mod left;
mod list;
mod module;
mod nest;
mod number;
mod operator;
mod outside;
mod parse_fault;
mod parser;
mod port;
mod primary;
mod select;
mod shape;
mod stmt;

pub use parse_fault::ParseFault;
pub use parser::parse;
