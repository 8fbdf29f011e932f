//! Whole files over a shelf.
#![tactic(auto)]

mod file;

pub use file::{read_file, read_front, write_file};
