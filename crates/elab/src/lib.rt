//! The rules that a netlist has to keep before it has a meaning, in their order, and what is planned of one that keeps
//! them.
#![tactic(auto)]

mod beginning;
mod fault;
mod labels;
mod module_rules;
mod names;
mod plan;
mod ports;
mod rules;

pub use fault::ElabFault;
pub use names::Names;
pub use plan::Plan;
pub use rules::elaborate;
