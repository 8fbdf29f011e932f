ghost use Rattle.std.specs.Prelude.{◌≡◌, ◌∷◌, [], IfOk, OnOk};
ghost use Rattle.std.specs.Option.{option_or};
ghost use Rattle.vlog_tree.specs.Meaning.Uses.{Text};
ghost use Rattle.nets.specs.Used.{first_place, shown, use_shown};

use crate::uses::Use;
use bm_base::NoMemory;
use std::alloc::Global;
use std::collections::HashMap;

/// The place of each name's first use.
#[derive(Drop)]
pub(crate) struct Places<'a> {
    places: HashMap<&'a [u8], u64>,
}

impl<'a> Places<'a> {
    ghost use Rattle.nets.specs.Kept.{place_in_map};

    pub(crate) fn of(alloc: Global, uses: &[Use<'a>]) -> Result<Places<'a>, NoMemory>
        ensures { IfOk result (λ places. (name : Text) → place_in_map places name
            ≡ first_place name (shown uses.now)) }
    {
        let mut places = Places {
            places: HashMap::new(alloc),
        };
        for one in uses {
            places.add(one)?;
        }
        Ok(places)
    }

    fn add(&mut self, one: &Use<'a>) -> Result<(), NoMemory>
        ensures { OnOk result ((name : Text) → place_in_map self.new name
            ≡ option_or (place_in_map self.old name) (first_place name (use_shown one.now ∷ []))) }
    {
        match self.get(one.name) {
            Some(_) => Ok(()),
            None => {
                self.places.insert(one.name, one.at)?;
                Ok(())
            }
        }
    }

    pub(crate) fn get(&self, name: &[u8]) -> Option<u64>
        ensures { result ≡ place_in_map self.now name.now }
    {
        self.places.get(name).copied()
    }
}
