//! The names of a design that are used as clocks, and those that carry the clock of its top.
#![tactic(auto)]

mod clock_uses;
mod clocked_names;
mod edges;
mod graph;
mod marks;
mod numbers;
mod passes;
mod plain;
mod steps;

pub use clock_uses::ClockUses;
pub use clocked_names::ClockedNames;
pub use plain::{plain_left, plain_name};
