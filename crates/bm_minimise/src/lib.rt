//! Shorter traces that violate: the order of the work.
#![tactic(auto)]

mod cutting;
mod deletion;
mod fault;
mod shortening;

pub use fault::MinFault;
pub use shortening::shorten;
