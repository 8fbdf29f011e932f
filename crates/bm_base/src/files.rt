ghost use Rattle.std.specs.Prelude.{◌≡◌, OnOk, OnErr};
ghost use Rattle.std.specs.Option.{option_copied};
ghost use Rattle.std.specs.FinMap.{empty, get};
ghost use Rattle.bm_base.specs.Held.{holding, appended};

use crate::NoMemory;
use std::alloc::Global;
use std::collections::BTreeMap;
use std::marker::Model;

/// Bytes under names, which a shelf in memory holds.
#[derive(Debug, Drop)]
pub(crate) struct Files {
    alloc: Global,
    files: BTreeMap<String, Vec<u8>>,
}

impl Model for Files {
    ghost use Rattle.bm_base.specs.Held.{Held, held_code};
    ghost use Rattle.bm_base.specs.TextMap.{text_map};

    ghost Value = { Held };

    ghost coded = { held_code };

    ghost view = { λ a. text_map (λ bytes. bytes.items) a.files };
}

impl Files {
    pub(crate) fn new(alloc: Global) -> Files
        ensures { result ≡ empty }
    {
        Files {
            alloc,
            files: BTreeMap::new(alloc),
        }
    }

    pub(crate) fn get(&self, name: &str) -> Option<&[u8]>
        ensures { option_copied result ≡ get self.now name.now }
    {
        match self.files.get(name) {
            Some(bytes) => Some(bytes.as_slice()),
            None => None,
        }
    }

    pub(crate) fn put(&mut self, name: &str, bytes: &[u8]) -> Result<(), NoMemory>
        ensures ok { OnOk result (self.new ≡ holding name.now bytes.now self.old) }
        ensures err { OnErr result (self.new ≡ self.old) }
    {
        let bytes = Vec::from_slice(self.alloc, bytes)?;
        let name = String::from_str(self.alloc, name)?;
        self.files.insert(name, bytes)?;
        Ok(())
    }

    // Adds a name that is not there.
    pub(crate) fn append(&mut self, name: &str, piece: &[u8]) -> Result<(), NoMemory>
        ensures ok { OnOk result (self.new ≡ appended name.now piece.now self.old) }
        ensures err { OnErr result (self.new ≡ self.old) }
    {
        match self.files.get_mut(name) {
            Some(bytes) => {
                bytes.extend_from_slice(piece)?;
                Ok(())
            }
            None => self.put(name, piece),
        }
    }
}
