//! An order in which the nodes of a flat netlist can be evaluated, or the least node that reads itself.
#![tactic(auto)]

mod fault;
mod least;
mod ordering;
mod parting;
mod parts;
mod placing;
mod reads;
mod walk;

pub use fault::OrderFault;
pub use ordering::{Order, order_of};
