//! Which bit of a design each node of its flat netlist stands for.
#![tactic(auto)]

mod counts;
mod kind;
pub mod laws;
mod place;
mod places;

pub use place::Place;
pub use places::ModulePlaces;
