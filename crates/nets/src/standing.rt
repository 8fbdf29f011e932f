ghost use Rattle.std.specs.Prelude.{◌≡◌, ◌&&◌, ◌||◌, OnOk, bytes_eq, false, filter};
ghost use Rattle.std.specs.List.{list_any};
ghost use Rattle.vlog_tree.specs.Meaning.Names.{is_named};
ghost use Rattle.vlog_tree.specs.Meaning.Uses.{Text, implicit_uses, item_uses};
ghost use Rattle.nets.specs.Used.{shown, whole_left};

use crate::uses::Use;
use bm_base::NoMemory;
use std::alloc::Global;
use std::collections::HashSet;
use vlog_tree::{Item, Left};

/// The names some use of which stands for a declaration.
#[derive(Drop)]
pub(crate) struct Standing<'a> {
    names: HashSet<&'a [u8]>,
}

impl<'a> Standing<'a> {
    ghost use Rattle.nets.specs.Kept.{stands};

    pub(crate) fn new(alloc: Global) -> Standing<'a>
        ensures { (name : Text) → stands result name ≡ false }
    {
        Standing {
            names: HashSet::new(alloc),
        }
    }

    /// Adds those of an item, of which these are the uses.
    pub(crate) fn add_item(&mut self, item: &'a Item, uses: &[Use<'a>]) -> Result<(), NoMemory>
        requires { shown uses.now ≡ item_uses item.now }
        ensures { OnOk result ((name : Text) → stands self.new name
            ≡ (stands self.old name || list_any (is_named name) (implicit_uses item.now))) }
    {
        match item {
            Item::Gate { .. } | Item::Instance { .. } => self.add_whole(uses),
            Item::Assign { left, .. } => self.add_left(left),
            Item::Decl { .. } | Item::Always { .. } | Item::Initial { .. } => Ok(()),
        }
    }

    // Adds the left side of a continuous assignment, if it is a whole name.
    fn add_left(&mut self, left: &'a Left) -> Result<(), NoMemory>
        ensures { OnOk result ((name : Text) → stands self.new name
            ≡ (stands self.old name || list_any (is_named name) (whole_left left.now))) }
    {
        match left {
            Left::Whole { name, .. } => self.add(name.bytes()),
            Left::Bit { .. } | Left::Part { .. } | Left::Join(_) => Ok(()),
        }
    }

    // Adds those that stand without a select.
    fn add_whole(&mut self, uses: &[Use<'a>]) -> Result<(), NoMemory>
        ensures { OnOk result ((name : Text) → stands self.new name
            ≡ (stands self.old name || list_any (is_named name) (filter (λ one. one.is_whole) (shown uses.now)))) }
    {
        for one in uses {
            self.add_if_whole(one)?;
        }
        Ok(())
    }

    fn add_if_whole(&mut self, one: &Use<'a>) -> Result<(), NoMemory>
        ensures { OnOk result ((name : Text) → stands self.new name
            ≡ (stands self.old name || (one.now.is_whole && bytes_eq one.now.name.now name))) }
    {
        if one.is_whole {
            self.add(one.name)
        } else {
            Ok(())
        }
    }

    fn add(&mut self, name: &'a [u8]) -> Result<(), NoMemory>
        ensures { OnOk result ((other : Text) → stands self.new other
            ≡ (stands self.old other || bytes_eq name.now other)) }
    {
        self.names.insert(name)?;
        Ok(())
    }

    pub(crate) fn has(&self, name: &[u8]) -> bool
        ensures { result ≡ stands self.now name.now }
    {
        self.names.contains(name)
    }
}
