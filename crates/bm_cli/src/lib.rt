//! The top call: the commands of `butramin` over any shelf and any sink.
#![tactic(auto)]

mod answer;
mod calm;
mod commands;
pub mod laws;
mod top;

pub use calm::run_calmly;
pub use top::run;
