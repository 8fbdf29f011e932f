//! What is written of a trace is read back: the law that joins the reader and the writer of waveforms.
#![tactic(auto)]

pub mod laws;
