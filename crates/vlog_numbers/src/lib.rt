//! What single tokens stand for: reserved words and marks, names, and numbers (IEEE 1364-2005, clause 3.5.1), and which
//! number is the first outside the rules.
#![tactic(auto)]

mod based;
mod digits;
mod fault;
mod number_fault;
mod row;
mod token;
mod value;

pub use fault::Fault;
pub use number_fault::number_fault_at;
pub use token::{decimal_between, is_size, is_terminal, name_of, terminal};
pub use value::{sized_bits, unsized_bits, word_bits};
