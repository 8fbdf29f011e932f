ghost use Rattle.std.specs.Prelude.{◌≡◌, IfOk, None, OnOk};
ghost use Rattle.std.specs.Option.{option_copied};
ghost use Rattle.vlog_tree.specs.declared.item.Item.TheVariants.{Decl};
ghost use Rattle.vlog_tree.specs.Meaning.Uses.{Text};
ghost use Rattle.nets.specs.Declaring.{after_declaration, after_item, after_items};

use crate::Net;
use bm_base::{NoMemory, Range};
use std::alloc::Global;
use std::collections::HashMap;
use vlog_tree::{Dir, Item, NetKind};

/// What the declarations of a module say of each name that they declare.
#[derive(Drop)]
pub(crate) struct Declarations<'a> {
    nets: HashMap<&'a [u8], Net>,
}

impl<'a> Declarations<'a> {
    ghost use Rattle.nets.specs.Kept.{net_in};

    pub(crate) fn of(alloc: Global, items: &'a [Item]) -> Result<Declarations<'a>, NoMemory>
        ensures { IfOk result (λ declarations. (name : Text) → net_in declarations name
            ≡ after_items name None items.now) }
    {
        let mut declarations = Declarations {
            nets: HashMap::new(alloc),
        };
        for item in items {
            declarations.add(item)?;
        }
        Ok(declarations)
    }

    fn add(&mut self, item: &'a Item) -> Result<(), NoMemory>
        ensures { OnOk result ((name : Text) → net_in self.new name
            ≡ after_item name (net_in self.old name) item.now) }
    {
        match item {
            Item::Decl {
                at,
                dir,
                kind,
                range,
                name,
            } => self.add_declaration(*at, *dir, *kind, *range, name.bytes()),
            _ => Ok(()),
        }
    }

    fn add_declaration(
        &mut self,
        at: u64,
        dir: Option<Dir>,
        kind: NetKind,
        range: Option<Range>,
        name: &'a [u8],
    ) -> Result<(), NoMemory>
        ensures { OnOk result ((other : Text) → net_in self.new other
            ≡ after_item other (net_in self.old other) (Decl at dir kind range name.now)) }
    {
        let net = self.after(at, dir, kind, range, name);
        self.nets.insert(name, net)?;
        Ok(())
    }

    // What is known of the name after a declaration of it.
    fn after(
        &self,
        at: u64,
        dir: Option<Dir>,
        kind: NetKind,
        range: Option<Range>,
        name: &[u8],
    ) -> Net
        ensures { result ≡ after_declaration (net_in self.now name.now) at dir kind range }
    {
        match self.get(name) {
            Some(known) => known.with_declaration(dir, kind, range),
            None => Net::declared(at, dir, kind, range),
        }
    }

    /// What they say of the name, if it is declared.
    pub(crate) fn get(&self, name: &[u8]) -> Option<&Net>
        ensures { option_copied result ≡ net_in self.now name.now }
    {
        self.nets.get(name)
    }
}
