//! The outside as the system has it: real files as a shelf, and standard output as a sink. This is the edge that is
//! trusted: nothing is known of what a real file or a terminal holds.
#![tactic(auto)]

mod os_shelf;
mod os_sink;

pub use os_shelf::OsShelf;
pub use os_sink::OsSink;
