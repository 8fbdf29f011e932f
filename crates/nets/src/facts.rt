ghost use Rattle.std.specs.Prelude.{◌≡◌, IfOk, None, flat_map};
ghost use Rattle.vlog_tree.specs.Meaning.Names.{is_implicit};
ghost use Rattle.vlog_tree.specs.Meaning.Uses.{item_uses};
ghost use Rattle.nets.specs.Facts.{Tells};
ghost use Rattle.nets.specs.Kept.{net_in};
ghost use Rattle.nets.specs.Nets.{net_of};
ghost use Rattle.nets.specs.Used.{shown};

use crate::Net;
use crate::declarations::Declarations;
use crate::places::Places;
use crate::standing::Standing;
use crate::used::Used;
use crate::uses::Use;
use bm_base::NoMemory;
use sqlite_items::Items;
use std::alloc::Global;
use vlog_tree::Module;

/// What a module's declarations and uses say of its names.
#[derive(Drop)]
pub(crate) struct Facts<'a> {
    pub(crate) m: &'a Module,
    /// All uses of names, in source order.
    pub(crate) uses: Items<Use<'a>>,
    declarations: Declarations<'a>,
    places: Places<'a>,
    standing: Standing<'a>,
    ghost told: { Tells m.now declarations uses places standing },
}

impl<'a> Facts<'a> {
    pub(crate) fn of(alloc: Global, m: &'a Module) -> Result<Facts<'a>, NoMemory>
        ensures { IfOk result (λ facts. facts.m.now ≡ m.now) }
    {
        let items = m.items.as_slice();
        let declarations = Declarations::of(alloc, items)?;
        let Used { uses, standing } = Used::of(alloc, items)?;
        let places = Places::of(alloc, uses.as_slice())?;
        Ok(Facts {
            m,
            uses,
            declarations,
            places,
            standing,
        })
    }

    /// All uses of names in the module, in source order.
    pub(crate) fn into_uses(self) -> Items<Use<'a>>
        ensures { shown result ≡ flat_map item_uses self.entry.m.now.items }
    {
        self.uses
    }

    /// What they say of the name, if it is declared or implicit.
    pub(crate) fn net(&self, name: &[u8]) -> Option<Net>
        ensures { result ≡ net_of self.now.m.now name.now }
    {
        match self.declarations.get(name) {
            Some(net) => Some(net.copy()),
            None => self.implicit_net(name),
        }
    }

    fn implicit_net(&self, name: &[u8]) -> Option<Net>
        requires { net_in self.now.declarations name.now ≡ None }
        ensures { result ≡ net_of self.now.m.now name.now }
    {
        if self.standing.has(name) {
            // A name that stands for a declaration is used, so it has a first place.
            Some(Net::implicit(self.places.get(name).unwrap_or(0)))
        } else {
            None
        }
    }

    pub(crate) fn is_implicit(&self, name: &[u8]) -> bool
        ensures { result ≡ is_implicit self.now.m.now name.now }
    {
        match self.declarations.get(name) {
            Some(_) => false,
            None => self.standing.has(name),
        }
    }
}
