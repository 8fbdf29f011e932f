//! The rule that a bit has one driver.
#![tactic(auto)]

mod assigned;
mod bit_set;
mod doubles;
mod drivers;
mod groups;
mod initials;
mod outputs;
mod run;
mod select;
mod selects;

pub use drivers::note_double_drivers;
