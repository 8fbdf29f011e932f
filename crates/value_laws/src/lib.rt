//! That the values of the bits of a design settle.
#![tactic(auto)]

pub mod laws;
