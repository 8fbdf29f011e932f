//! The rules on the widths of a module's expressions and left sides, on selects, and on the terminals of gates.
#![tactic(auto)]

mod inside;
mod selects;
mod shape;
mod terminals;
mod whole;
mod widths;

pub use terminals::note_bad_terminals;
pub use whole::note_whole;
pub use widths::note_bad_widths;
