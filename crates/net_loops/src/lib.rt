//! Which nodes of a flat netlist read themselves, and that these are why nodes have no value.
#![tactic(auto)]

pub mod laws;
