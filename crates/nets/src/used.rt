ghost use Rattle.std.specs.Prelude.{◌≡◌, ◌||◌, ◌++◌, IfOk, OnOk, flat_map};
ghost use Rattle.std.specs.List.{list_any};
ghost use Rattle.vlog_tree.specs.Meaning.Names.{is_named};
ghost use Rattle.vlog_tree.specs.Meaning.Uses.{Text, implicit_uses, item_uses};
ghost use Rattle.nets.specs.Kept.{stands};
ghost use Rattle.nets.specs.Used.{shown};

use crate::standing::Standing;
use crate::uses::{Use, uses_of};
use bm_base::NoMemory;
use sqlite_items::Items;
use std::alloc::Global;
use vlog_tree::Item;

/// The uses of names in a module.
#[derive(Drop)]
pub(crate) struct Used<'a> {
    /// All of them, in source order.
    pub(crate) uses: Items<Use<'a>>,
    pub(crate) standing: Standing<'a>,
}

impl<'a> Used<'a> {
    pub(crate) fn of(alloc: Global, items: &'a [Item]) -> Result<Used<'a>, NoMemory>
        ensures uses { IfOk result (λ used. shown used.uses ≡ flat_map item_uses items.now) }
        ensures standing { IfOk result (λ used. (name : Text) → stands used.standing name
            ≡ list_any (is_named name) (flat_map implicit_uses items.now)) }
    {
        let mut used = Used {
            uses: Items::new(alloc),
            standing: Standing::new(alloc),
        };
        for item in items {
            used.add(alloc, item)?;
        }
        Ok(used)
    }

    fn add(&mut self, alloc: Global, item: &'a Item) -> Result<(), NoMemory>
        ensures uses { OnOk result (shown self.new.uses ≡ shown self.old.uses ++ item_uses item.now) }
        ensures standing { OnOk result ((name : Text) → stands self.new.standing name
            ≡ (stands self.old.standing name || list_any (is_named name) (implicit_uses item.now))) }
    {
        let uses = uses_of(alloc, item)?;
        self.standing.add_item(item, uses.as_slice())?;
        self.uses.append(uses)?;
        Ok(())
    }
}
