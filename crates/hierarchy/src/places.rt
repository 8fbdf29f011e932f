//! The modules by name.
ghost use Rattle.std.specs.Prelude.{◌≡◌, None, OnOk, Some, if◌then◌else◌, bytes_eq};
ghost use Rattle.hierarchy.specs.Places.{place_in};
ghost use Rattle.vlog_tree.specs.Meaning.Uses.{Text};

use bm_base::NoMemory;
use indexmap::IndexMap;
use std::alloc::Global;

/// The place of the first module of each name.
#[derive(Drop)]
pub(crate) struct Places<'a> {
    places: IndexMap<&'a [u8], usize>,
}

impl<'a> Places<'a> {
    pub(crate) fn new(alloc: Global) -> Places<'a>
        ensures { (name : Text) → place_in result name ≡ None }
    {
        Places {
            places: IndexMap::new(alloc),
        }
    }

    pub(crate) fn get(&self, name: &[u8]) -> Option<usize>
        ensures { result ≡ place_in self.now name.now }
    {
        self.places.get(name).copied()
    }

    /// Gives the name this place.
    pub(crate) fn insert(&mut self, name: &'a [u8], place: usize) -> Result<(), NoMemory>
        ensures { OnOk result ((other : Text) → place_in self.new other
            ≡ (if bytes_eq name.now other then Some place else place_in self.old other)) }
    {
        self.places.insert(name, place)?;
        Ok(())
    }
}
