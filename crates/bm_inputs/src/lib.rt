//! The files that a command reads, in the one order in which they are read and refused.
#![tactic(auto)]

mod given;
mod inputs;
pub mod laws;
mod line;
mod netlist;
mod netlist_line;
mod stop;
mod waveform;
mod waveform_line;

pub use inputs::{Input, read_inputs};
pub use line::limit_line;
pub use stop::{InputRefusal, InputStop};
