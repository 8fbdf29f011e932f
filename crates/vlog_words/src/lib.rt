//! The words of the netlist language (IEEE 1364-2005, clauses 3.2 and 3.7, annex B): which texts are words, which of
//! them are reserved, and which bytes are white space.
#![tactic(auto)]

mod among;
mod reserved;
mod word;

pub use among::is_among;
pub use reserved::{is_outside_word, is_reserved};
pub use word::{is_space, is_word, is_word_byte, is_word_start};
