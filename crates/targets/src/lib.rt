//! The numbers of the bits that are assigned.
#![tactic(auto)]

mod expressions;
mod lefts;
mod names;
mod numbers;
mod run;
mod runs;

pub use expressions::target_numbers;
pub use lefts::{add_left, left_numbers};
pub use names::name_numbers;
pub use numbers::Numbers;
