use crate::Item;
use bm_base::Name;
use sqlite_items::Items;

/// A source text: its modules in source order (IEEE 1364-2005, clause 12.1).
#[derive(Debug, Drop)]
pub struct Design {
    pub modules: Items<Module>,
}

/// A module. A header with directions gives `ports` and one `Item::Decl` each, before the other items.
#[derive(Debug, Drop)]
pub struct Module {
    pub at: u64,
    pub name: Name,
    /// The names of the header, in its order.
    pub ports: Items<Name>,
    /// In source order.
    pub items: Items<Item>,
}
