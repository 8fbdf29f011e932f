ghost use Rattle.std.specs.Prelude.{◌≡◌, ◌++◌, [], OnOk, IfErr, Some};

use crate::{Fault, Sink};
use std::alloc::Global;
use std::marker::Model;

/// Printed bytes in memory. It never fails.
#[derive(Debug, Drop)]
pub struct CalmSink {
    taken: Vec<u8>,
}

impl Model for CalmSink {
    ghost use Rattle.std.specs.Prelude.{List, ℕ};

    ghost Value = { List ℕ };

    ghost view = { λ a. a.taken.items };
}

impl CalmSink {
    /// A sink that has taken nothing.
    pub fn new(alloc: Global) -> CalmSink
        ensures { result ≡ [] }
    {
        CalmSink {
            taken: Vec::new(alloc),
        }
    }

    /// The bytes so far.
    pub fn bytes(&self) -> &[u8]
        ensures { result.now ≡ self.now }
    {
        self.taken.as_slice()
    }
}

impl Sink for CalmSink {
    ghost taken = { λ sink. Some sink };

    ghost faults = { λ _. 0 };

    fn put(&mut self, piece: &[u8]) -> Result<(), Fault>
        ensures ok { OnOk result (self.new ≡ self.old ++ piece.now) }
        ensures err { IfErr result (λ fault. (fault ≡ Fault.Memory) × (self.new ≡ self.old)) }
    {
        self.taken.extend_from_slice(piece)?;
        Ok(())
    }
}
