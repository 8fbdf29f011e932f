//! That a design and its flat netlist are one machine.
#![tactic(auto)]

pub mod laws;
