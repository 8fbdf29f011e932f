//! What statements give to registers, as edges.
#![tactic(auto)]

mod assigned;
mod branches;
mod choices;
pub mod laws;
mod numbers;
mod sets;
mod sorting;
mod statements;
mod writing;

pub use statements::lower_statement;
