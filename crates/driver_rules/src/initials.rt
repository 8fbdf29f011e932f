//! Registers that have a second initial value.
ghost use Rattle.std.specs.Prelude.{◌≡◌, ◌∷◌, ◌||◌, [], OnOk, bytes_eq, cond, false, fold};
ghost use Rattle.hierarchy.specs.Failures.{earlier, failure};
ghost use Rattle.vlog_tree.specs.Meaning.Uses.{Text};
ghost use Rattle.driver_rules.specs.Begun.{begun_in, second_by};
ghost use Rattle.driver_rules.specs.Doubles.{begins, second_initials_after};

use bm_base::{Name, NoMemory};
use hierarchy::{Earliest, note_if};
use std::alloc::Global;
use std::collections::HashSet;
use vlog_tree::{Item, Module};

/// Notes each `initial` of a register that has one before it.
pub(crate) fn note_second_initials<'a>(
    alloc: Global,
    m: &'a Module,
    found: &mut Earliest<'a>,
) -> Result<(), NoMemory>
    ensures { OnOk result (found.new ≡ fold earlier found.old (second_initials_after m.now [] m.now.items)) }
{
    let mut begun = Begun::new(alloc);
    for item in m.items.as_slice() {
        begun.take(m, item, found)?;
    }
    Ok(())
}

/// The registers that have an initial value so far.
#[derive(Drop)]
pub(crate) struct Begun<'a> {
    names: HashSet<&'a [u8]>,
}

impl<'a> Begun<'a> {
    fn new(alloc: Global) -> Begun<'a>
        ensures { (name : Text) → begun_in result name ≡ false }
    {
        Begun {
            names: HashSet::new(alloc),
        }
    }

    fn take(
        &mut self,
        m: &'a Module,
        item: &'a Item,
        found: &mut Earliest<'a>,
    ) -> Result<(), NoMemory>
        ensures found { OnOk result (found.new ≡ fold earlier found.old (second_by m.now (begun_in self.old) item.now)) }
        ensures begun { OnOk result ((name : Text) → begun_in self.new name
            ≡ (begun_in self.old name || begins name item.now)) }
    {
        match item {
            Item::Initial { at, name, .. } => self.begin(m, *at, name, found),
            _ => Ok(()),
        }
    }

    fn begin(
        &mut self,
        m: &'a Module,
        at: u64,
        name: &'a Name,
        found: &mut Earliest<'a>,
    ) -> Result<(), NoMemory>
        ensures found { OnOk result (found.new ≡ fold earlier found.old
            (cond (begun_in self.old name.now) (failure at m.now.name name.now ∷ []) [])) }
        ensures begun { OnOk result ((other : Text) → begun_in self.new other
            ≡ (begun_in self.old other || bytes_eq name.now other)) }
    {
        let name = name.bytes();
        note_if(self.has(name), m, at, name, found);
        self.names.insert(name)?;
        Ok(())
    }

    fn has(&self, name: &[u8]) -> bool
        ensures { result ≡ begun_in self.now name.now }
    {
        self.names.contains(name)
    }
}
