//! The numbers of the bits of each instance.
#![tactic(auto)]

mod frame;
mod frames;
mod ground;
mod module_places;
mod start;
mod starts;

pub use frame::Frame;
pub use frames::Frames;
