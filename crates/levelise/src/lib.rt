//! The machine of a flat netlist without loops, cycle by cycle.
#![tactic(auto)]

mod levelled;
mod levelling;
mod placed;
mod runs;
mod states;
mod values;

pub use levelled::Levelled;
pub use levelling::levelise;
pub use net_order::OrderFault as LevelFault;
pub use states::States;
