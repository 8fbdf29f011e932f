//! The outside as Butramin sees it: named bytes on a shelf, a sink for printed lines, their faults, and the
//! plain values that every other crate speaks of.
#![tactic(auto)]

mod bits;
mod call;
mod calm_shelf;
mod calm_sink;
mod copy;
mod counts;
mod fault;
mod files;
mod mem_shelf;
mod mem_sink;
mod name;
mod range;
mod script;
mod shelf;
mod sink;
mod size;
mod status;

pub use bits::Bits;
pub use call::Call;
pub use calm_shelf::CalmShelf;
pub use calm_sink::CalmSink;
pub use counts::Counts;
pub use fault::{Fault, NoMemory};
pub use mem_shelf::MemShelf;
pub use mem_sink::MemSink;
pub use name::Name;
pub use range::Range;
pub use shelf::Shelf;
pub use sink::Sink;
pub use size::Size;
pub use status::Status;
