//! Names that more than one thing has.
ghost use Rattle.std.specs.Prelude.{◌≡◌, ◌∷◌, ◌++◌, [], None, OnOk, filter, fold, map};
ghost use Rattle.hierarchy.specs.Failures.{earlier};
ghost use Rattle.vlog_tree.specs.Meaning.Names.{is_implicit};
ghost use Rattle.vlog_tree.specs.Meaning.Uses.{Text};
ghost use Rattle.nets.specs.Used.{shown, use_shown};
ghost use Rattle.name_rules.specs.Declarations.{implicit_things, own_things, shared_names, thing};
ghost use Rattle.name_rules.specs.Owners.{clashes, implicit_among, kept_in, owned, take_thing, walk};

use bm_base::NoMemory;
use hierarchy::{Earliest, note_if};
use nets::{Nets, Use, uses_of};
use std::alloc::Global;
use std::collections::HashMap;
use vlog_tree::{Item, Module};

/// Notes each thing that has the name of one before it, where not both are nets.
pub(crate) fn note_shared_names<'a>(
    alloc: Global,
    nets: &Nets<'a>,
    found: &mut Earliest<'a>,
) -> Result<(), NoMemory>
    ensures { OnOk result (found.new ≡ fold earlier found.old (shared_names nets.now)) }
{
    let m = nets.module();
    let mut owners = Owners::new(alloc);
    for item in m.items.as_slice() {
        owners.take_item(alloc, nets, item, found)?;
    }
    Ok(())
}

/// The names that things have so far, each with whether an instance or a gate has it.
#[derive(Drop)]
pub(crate) struct Owners<'a> {
    names: HashMap<&'a [u8], bool>,
}

impl<'a> Owners<'a> {
    fn new(alloc: Global) -> Owners<'a>
        ensures { (name : Text) → kept_in result name ≡ None }
    {
        Owners {
            names: HashMap::new(alloc),
        }
    }

    fn take_item(
        &mut self,
        alloc: Global,
        nets: &Nets<'a>,
        item: &'a Item,
        found: &mut Earliest<'a>,
    ) -> Result<(), NoMemory>
        ensures { OnOk result (walk found.new (kept_in self.new)
            ≡ fold (take_thing nets.now) (walk found.old (kept_in self.old))
            (own_things item.now ++ implicit_things nets.now item.now)) }
    {
        let uses = uses_of(alloc, item)?;
        self.take_own(nets.module(), item, found)?;
        self.take_implicit(nets, uses.as_slice(), found)
    }

    fn take_own(
        &mut self,
        m: &'a Module,
        item: &'a Item,
        found: &mut Earliest<'a>,
    ) -> Result<(), NoMemory>
        ensures { OnOk result (walk found.new (kept_in self.new)
            ≡ fold (take_thing m.now) (walk found.old (kept_in self.old)) (own_things item.now)) }
    {
        match item {
            Item::Decl { at, name, .. } => self.take(m, *at, name.bytes(), true, found),
            Item::Gate {
                at,
                name: Some(name),
                ..
            } => self.take(m, *at, name.bytes(), false, found),
            Item::Instance { at, name, .. } => self.take(m, *at, name.bytes(), false, found),
            _ => Ok(()),
        }
    }

    fn take_implicit(
        &mut self,
        nets: &Nets<'a>,
        uses: &[Use<'a>],
        found: &mut Earliest<'a>,
    ) -> Result<(), NoMemory>
        ensures { OnOk result (walk found.new (kept_in self.new)
            ≡ fold (take_thing nets.now) (walk found.old (kept_in self.old))
            (implicit_among nets.now (shown uses.now))) }
    {
        for one in uses {
            self.take_use(nets, one, found)?;
        }
        Ok(())
    }

    fn take_use(
        &mut self,
        nets: &Nets<'a>,
        one: &Use<'a>,
        found: &mut Earliest<'a>,
    ) -> Result<(), NoMemory>
        ensures { OnOk result (walk found.new (kept_in self.new)
            ≡ fold (take_thing nets.now) (walk found.old (kept_in self.old))
            (implicit_among nets.now (use_shown one.now ∷ []))) }
    {
        if is_implicit(nets, one.name) {
            self.take(nets.module(), one.at, one.name, true, found)
        } else {
            Ok(())
        }
    }

    fn take(
        &mut self,
        m: &'a Module,
        at: u64,
        name: &'a [u8],
        is_net: bool,
        found: &mut Earliest<'a>,
    ) -> Result<(), NoMemory>
        ensures { OnOk result (walk found.new (kept_in self.new)
            ≡ take_thing m.now (walk found.old (kept_in self.old)) (thing at name.now is_net)) }
    {
        let known = self.get(name);
        note_if(clashes(known, is_net), m, at, name, found);
        self.names.insert(name, owned(known, is_net))?;
        Ok(())
    }

    fn get(&self, name: &[u8]) -> Option<bool>
        ensures { result ≡ kept_in self.now name.now }
    {
        self.names.get(name).copied()
    }
}

// Whether one more thing may not have a name of which this is kept.
fn clashes(known: Option<bool>, is_net: bool) -> bool
    ensures { result ≡ clashes known is_net }
{
    match known {
        Some(has_other) => !is_net || has_other,
        None => false,
    }
}

// What is kept of a name once one more thing has it.
fn owned(known: Option<bool>, is_net: bool) -> bool
    ensures { result ≡ owned known is_net }
{
    match known {
        Some(has_other) => has_other || !is_net,
        None => !is_net,
    }
}

fn is_implicit(nets: &Nets, name: &[u8]) -> bool
    ensures { result ≡ is_implicit nets.now name.now }
{
    match nets.find(name) {
        Some(net) => !net.is_declared(),
        None => false,
    }
}
