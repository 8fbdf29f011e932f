//! That a design is loop-free exactly where no node of its flat netlist reads itself.
#![tactic(auto)]

pub mod laws;
