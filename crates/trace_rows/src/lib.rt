//! Traces: the input bits of each cycle, one row per cycle, and the labels that say what the bits are.
#![tactic(auto)]

mod events;
mod labels;
mod place;
mod trace;

pub use events::events_are_listed;
pub use labels::{Labels, PortLabel};
pub use place::Place;
pub use trace::Trace;
