ghost use Rattle.std.specs.Prelude.{◌≡◌, ◌≤◌, [], OnOk, OnErr, IsOk, IfOk, IfErr, length, Some};
ghost use Rattle.std.specs.Option.{option_copied};
ghost use Rattle.std.specs.FinMap.{empty, get};
ghost use Rattle.bm_base.specs.Held.{holding, appended, bytes_under, Reads, Fills};

use crate::copy::copy_from;
use crate::files::Files;
use crate::{Fault, NoMemory, Shelf};
use std::alloc::Global;
use std::marker::Model;

/// Bytes in memory under names, whose calls never fail. A name that is not there counts as empty.
#[derive(Debug, Drop)]
pub struct CalmShelf {
    files: Files,
}

impl Model for CalmShelf {
    ghost use Rattle.bm_base.specs.Held.{Held, held_code};

    ghost Value = { Held };

    ghost coded = { held_code };

    ghost view = { λ a. a.files };
}

impl CalmShelf {
    /// A shelf that holds nothing.
    pub fn new(alloc: Global) -> CalmShelf
        ensures { result ≡ empty }
    {
        CalmShelf {
            files: Files::new(alloc),
        }
    }

    /// Puts the bytes under the name, in the place of what was there.
    pub fn add(&mut self, name: &str, bytes: &[u8]) -> Result<(), NoMemory>
        ensures ok { OnOk result (self.new ≡ holding name.now bytes.now self.old) }
        ensures err { OnErr result (self.new ≡ self.old) }
    {
        self.files.put(name, bytes)
    }

    /// The bytes under the name, if it is there.
    pub fn bytes(&self, name: &str) -> Option<&[u8]>
        ensures { option_copied result ≡ get self.now name.now }
    {
        self.files.get(name)
    }
}

impl Shelf for CalmShelf {
    ghost held = { λ shelf. Some shelf };

    ghost reads = { λ _. empty };

    ghost writes = { λ _. empty };

    fn len(&mut self, name: &str) -> Result<u64, Fault>
        ensures length { IfOk result (λ len. len ≡ length (bytes_under self.old name.now)) }
        ensures succeeds { IsOk result }
        ensures held { self.new ≡ self.old }
    {
        match self.files.get(name) {
            Some(bytes) => Ok(bytes.len() as u64),
            None => Ok(0),
        }
    }

    fn read_at(&mut self, name: &str, at: u64, buf: &mut [u8]) -> Result<usize, Fault>
        ensures within { IfOk result (λ count. count ≤ length buf.old) }
        ensures succeeds { IsOk result }
        ensures fills { IfOk result (λ count. Fills (bytes_under self.old name.now) at count buf.old buf.new) }
        ensures bytes { IfOk result (λ count. Reads (bytes_under self.old name.now) at count buf.new) }
        ensures held { self.new ≡ self.old }
    {
        match self.files.get(name) {
            Some(bytes) => Ok(copy_from(bytes, at, buf)),
            None => Ok(0),
        }
    }

    fn create(&mut self, name: &str) -> Result<(), Fault>
        ensures ok { OnOk result (self.new ≡ holding name.now [] self.old) }
        ensures err { IfErr result (λ fault. (fault ≡ Fault.Memory) × (self.new ≡ self.old)) }
    {
        self.files.put(name, &[])?;
        Ok(())
    }

    fn append(&mut self, name: &str, piece: &[u8]) -> Result<(), Fault>
        ensures ok { OnOk result (self.new ≡ appended name.now piece.now self.old) }
        ensures err { IfErr result (λ fault. (fault ≡ Fault.Memory) × (self.new ≡ self.old)) }
    {
        self.files.append(name, piece)?;
        Ok(())
    }
}
