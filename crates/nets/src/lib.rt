//! What a module says of its names, looked up in constant time.
#![tactic(auto)]

mod declarations;
mod facts;
mod marks;
mod net;
mod places;
mod placing;
mod ranges;
mod standing;
mod table;
mod used;
mod uses;

pub use net::Net;
pub use ranges::{place_of, span};
pub use table::Nets;
pub use uses::{Use, uses_of};
