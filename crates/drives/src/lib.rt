//! The edges that the driven bits of a design are given.
#![tactic(auto)]

mod driven;

pub use driven::Driven;
