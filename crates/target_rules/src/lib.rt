//! The rule on what may be assigned.
#![tactic(auto)]

mod assignable;
mod assignment;
mod connections;
mod exprs;
mod lefts;
mod statements;
mod targets;

pub use targets::note_bad_targets;
