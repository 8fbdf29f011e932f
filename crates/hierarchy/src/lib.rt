//! The modules of a design by name and by reach, and the rules on them and their instances.
#![tactic(auto)]

mod failure;
mod fault;
mod graph;
mod instances;
mod modules;
mod noting;
mod places;
mod reach;
mod repeated;
mod search;
mod steps;

pub use failure::{Earliest, Failure};
pub use fault::HierarchyFault;
pub use modules::{Hierarchy, hierarchy_of};
pub use noting::note_if;
pub use search::reached_from;
