//! The rules on clocks: what a clock may be, and where it may be read.
#![tactic(auto)]

mod assigned;
mod clocking;
mod connected;
mod data_reads;
mod port_lists;
mod reads;
mod top;

pub use clocking::note_bad_clocks;
pub use data_reads::note_clock_as_data;
