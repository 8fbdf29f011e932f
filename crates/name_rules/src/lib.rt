//! The rules on the names of a module: its header and its declarations, the names that it uses, and connections to ports.
#![tactic(auto)]

mod connections;
mod declarations;
mod header;
mod history;
mod owners;
mod ports;
mod uses;

pub use connections::note_bad_connections;
pub use declarations::note_bad_names;
pub use uses::note_unknown_names;
