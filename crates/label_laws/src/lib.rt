//! That the labels of a design which keeps the rules can be written.
#![tactic(auto)]

pub mod laws;
