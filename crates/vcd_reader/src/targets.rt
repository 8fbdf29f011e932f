ghost use Rattle.std.specs.Prelude.{◌≡◌, ◌∷◌, ◌++◌, [], ℕ, List, IfOk, OnOk, map, if◌then◌else◌};
ghost use Rattle.std.specs.Str.{bytes_eq};
ghost use Rattle.vcd_header.specs.Bits.{source_shown};

use crate::digit::Target;
use bm_base::NoMemory;
use std::alloc::Global;
use std::collections::HashMap;
use vcd_header::BitSource;

/// The bits that each code gives.
#[derive(Drop)]
pub(crate) struct Targets<'a> {
    lists: HashMap<&'a [u8], Vec<Target>>,
}

impl<'a> Targets<'a> {
    ghost use Rattle.vcd_reader.specs.Targets.{target_at, targets_from, targets_in};

    /// The bits that come from these sources.
    pub(crate) fn new(alloc: Global, sources: &[BitSource<'a>]) -> Result<Targets<'a>, NoMemory>
        ensures { IfOk result (λ targets. (code : List ℕ) → targets_in targets code
            ≡ targets_from 0 code (map source_shown sources.now)) }
    {
        let mut targets = Targets {
            lists: HashMap::new(alloc),
        };
        for (place, source) in sources.iter().enumerate() {
            targets.add(alloc, place, *source)?;
        }
        Ok(targets)
    }

    // Adds the bit of this place.
    fn add(&mut self, alloc: Global, place: usize, source: BitSource<'a>) -> Result<(), NoMemory>
        ensures { OnOk result ((code : List ℕ) → targets_in self.new code ≡ targets_in self.old code
            ++ (if bytes_eq code source.entry.code.now then target_at place source.entry.digit ∷ [] else [])) }
    {
        let mut list = self.take(alloc, source.code);
        list.push(Target {
            bit: place,
            digit: source.digit,
        })?;
        self.put(source.code, list)
    }

    // Takes the list of a code away.
    fn take(&mut self, alloc: Global, code: &[u8]) -> Vec<Target>
        ensures list { result.items ≡ targets_in self.old code.now }
        ensures rest { (other : List ℕ) → targets_in self.new other
            ≡ (if bytes_eq code.now other then [] else targets_in self.old other) }
    {
        match self.lists.remove(code) {
            Some(list) => list,
            None => Vec::new(alloc),
        }
    }

    // Gives the code this list.
    fn put(&mut self, code: &'a [u8], list: Vec<Target>) -> Result<(), NoMemory>
        ensures { OnOk result ((other : List ℕ) → targets_in self.new other
            ≡ (if bytes_eq code.now other then list.items else targets_in self.old other)) }
    {
        self.lists.insert(code, list)?;
        Ok(())
    }

    /// The bits that the code gives.
    pub(crate) fn of_code(&self, code: &[u8]) -> &[Target]
        ensures { result.now ≡ targets_in self.now code.now }
    {
        match self.lists.get(code) {
            Some(list) => list,
            None => &[],
        }
    }
}
