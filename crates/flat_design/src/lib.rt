//! The flat netlist of a design, as a definition, and that it has the values of the design.
#![tactic(auto)]

pub mod laws;
