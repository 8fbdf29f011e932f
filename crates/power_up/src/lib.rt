//! What the registers of a design have at power-up.
#![tactic(auto)]

mod adding;
mod initial;
pub mod laws;

pub use adding::add_power_up;
