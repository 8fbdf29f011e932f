//! Whether a trace still violates without one of its cycles.
#![tactic(auto)]

mod base_run;
mod search;
mod spare;
mod violations;

pub use search::first_cut;
