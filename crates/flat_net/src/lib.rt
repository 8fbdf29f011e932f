//! The flat netlist: nodes of one bit, and how a run begins.
#![tactic(auto)]

mod edge;
mod fault;
pub mod laws;
mod net;
mod node;
mod setup;

pub use edge::Edge;
pub use fault::FlatFault;
pub use net::FlatNet;
pub use node::Node;
pub use setup::{Reset, Setup};
