//! Waveforms are read (IEEE 1364-2005, clause 18): what a value change dump says of the inputs in each cycle, and
//! where it is none.
#![tactic(auto)]

mod body;
mod bounded;
mod digit;
mod file;
mod form;
mod item;
pub mod laws;
mod sampler;
mod sources;
mod targets;
mod waveform;

pub use file::read_vcd;
pub use form::Form;
pub use waveform::read_bytes;
