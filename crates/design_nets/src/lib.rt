//! What each module of a design says of its names, and the ports of connections.
#![tactic(auto)]

mod ports;
mod table;

pub use ports::port_of;
pub use table::DesignNets;
