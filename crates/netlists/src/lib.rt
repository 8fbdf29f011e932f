//! Netlists: from their bytes to the machine of a design, or why there is none.
#![tactic(auto)]

mod fault;
pub mod laws;
mod netlist;
mod planned;

pub use fault::NetlistFault;
pub use netlist::read_netlist;
pub use planned::Netlist;
