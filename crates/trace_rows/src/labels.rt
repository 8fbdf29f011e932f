use bm_base::{Name, Range};
use sqlite_items::Items;

/// An input port of the top module, but the clock.
#[derive(Debug, Drop)]
pub struct PortLabel {
    pub name: Name,
    /// How many bits it has.
    pub width: u32,
    /// The range that one of its declarations writes.
    pub range: Option<Range>,
}

/// What the bits of a trace's rows are: those of each port in turn, each port from its right end.
#[derive(Debug, Drop)]
pub struct Labels {
    pub top: Name,
    pub clock: Name,
    pub check: Name,
    /// The top module's inputs but the clock, in header order.
    pub ports: Items<PortLabel>,
}
