//! The bits for which the nodes of a flat netlist stand, and their printed names.
#![tactic(auto)]

mod found;
mod holder;
mod index;
mod key;
mod kind;
mod path;
mod planned;
mod printed;
mod under;

pub use key::key_at;
pub use planned::key_of;
pub use printed::printed_key;
