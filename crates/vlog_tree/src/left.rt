use bm_base::{Name, Range};
use sqlite_items::Items;

/// What is assigned.
#[derive(Debug, Drop)]
pub enum Left {
    Whole { at: u64, name: Name },
    Bit { at: u64, name: Name, index: u32 },
    Part { at: u64, name: Name, range: Range },
    /// A concatenation, the leftmost part first.
    Join(Items<Left>),
}
