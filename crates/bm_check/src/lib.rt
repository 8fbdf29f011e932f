//! Whether a trace is one that cannot be shortened.
#![tactic(auto)]

mod judging;
mod verdict;

pub use judging::judge_trace;
pub use verdict::{Reason, Verdict};
