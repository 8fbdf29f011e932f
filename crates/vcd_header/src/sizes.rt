ghost use Rattle.std.specs.Prelude.{◌≡◌, ℕ, List, None, OnErr, OnOk, Some, if◌then◌else◌};
ghost use Rattle.std.specs.Str.{bytes_eq};
ghost use Rattle.vcd_header.specs.Sizes.{size_in};

use bm_base::NoMemory;
use std::alloc::Global;
use std::collections::HashMap;

/// The size of each code that is declared.
#[derive(Drop)]
pub(crate) struct Sizes<'a> {
    sizes: HashMap<&'a [u8], u32>,
}

impl<'a> Sizes<'a> {
    pub(crate) fn new(alloc: Global) -> Sizes<'a>
        ensures { (code : List ℕ) → size_in result code ≡ None }
    {
        Sizes {
            sizes: HashMap::new(alloc),
        }
    }

    pub(crate) fn get(&self, code: &[u8]) -> Option<u32>
        ensures { result ≡ size_in self.now code.now }
    {
        self.sizes.get(code).copied()
    }

    /// Gives the code this size.
    pub(crate) fn insert(&mut self, code: &'a [u8], size: u32) -> Result<(), NoMemory>
        ensures err { OnErr result ((other : List ℕ) → size_in self.new other ≡ size_in self.old other) }
        ensures ok { OnOk result ((other : List ℕ) → size_in self.new other
            ≡ (if bytes_eq code.now other then Some size else size_in self.old other)) }
    {
        self.sizes.insert(code, size)?;
        Ok(())
    }
}
