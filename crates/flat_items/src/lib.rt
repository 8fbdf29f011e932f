//! What the items of an instance give to a flat netlist: nodes, and the edges of bits and registers.
#![tactic(auto)]

mod assign;
mod gate;
mod instance;
mod item;
mod links;
mod ports;
mod side;

pub use instance::lower_instance;
