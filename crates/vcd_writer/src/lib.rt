//! The text of a waveform (VCD, IEEE 1364-2005, clause 18) from a trace.
#![tactic(auto)]

mod code;
mod cycle;
mod header;
mod put;
mod row;
mod value;
mod waveform;

pub use waveform::vcd_text;
