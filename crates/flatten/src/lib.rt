//! The flat netlist of a design that keeps the rules, from its plan.
#![tactic(auto)]

mod first_state;
mod limits;
mod parts;
mod planned;
mod sources;
mod whole;

pub use planned::flatten;
