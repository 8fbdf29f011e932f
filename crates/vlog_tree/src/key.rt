use bm_base::Name;
use sqlite_items::Items;

/// One bit of one name of one instance.
#[derive(Debug, Drop)]
pub struct Key {
    /// The instance names from the top down. The top's is empty.
    pub path: Items<Name>,
    pub name: Name,
    /// The position from the right end of the name's range, from 0.
    pub bit: u32,
}
