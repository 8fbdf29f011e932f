//! What a design has that keeps the rules of elaboration.
#![tactic(auto)]

pub mod laws;
