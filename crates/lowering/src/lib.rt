//! The nodes of a flat netlist that stand for expressions.
#![tactic(auto)]

mod edges;
mod expressions;
mod gates;
pub mod laws;
mod nodes;
mod operators;
mod pairs;
mod scope;
mod selects;

pub use expressions::{lower, lower_assigned, lower_condition};
pub use gates::{all_bits, any_bit, choose, parity};
pub use nodes::Nodes;
pub use scope::{Scope, Wire};
