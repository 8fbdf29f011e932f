//! The instances of a design in pre-order, as a list with sizes.
#![tactic(auto)]

mod adding;
mod graph;
mod instances;
pub mod laws;
mod placed;

pub use instances::Instances;
