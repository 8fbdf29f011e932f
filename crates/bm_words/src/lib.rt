//! The words of a command line, and what they ask for.
#![tactic(auto)]

mod asked;
mod cycles;
mod fit;
mod further;
pub mod laws;
mod names;
mod options;
mod place;
mod required;
mod reset;
mod words;

pub use asked::{Asked, Inputs, Minimise};
pub use names::{Names, Reset};
pub use words::read_words;
