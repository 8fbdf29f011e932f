//! The header of a waveform is read (IEEE 1364-2005, clause 18): which variables it declares, and which of them give the
//! bits of some labels.
#![tactic(auto)]

mod command;
mod contents;
mod decimal;
mod declaration;
mod declarations;
mod dotted;
mod fault;
mod firsts;
mod header;
mod matching;
mod names;
mod scope;
mod scope_table;
mod section;
mod select;
mod sizes;
mod source;
mod token;
mod variables;
mod wanted;

pub use decimal::number_up_to;
pub use declaration::is_code;
pub use declarations::Declarations;
pub use fault::VcdFault;
pub use header::take_header;
pub use matching::matched;
pub use section::skip_section;
pub use select::Select;
pub use source::BitSource;
pub use token::{Token, Tokens};
