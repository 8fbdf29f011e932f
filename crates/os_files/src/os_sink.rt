ghost use Rattle.std.specs.Prelude.{None, ◌≡◌};

use bm_base::{Fault, Sink};
use std::io;
use std::io::Write;

/// Standard output. It tells nothing of what was taken, and counts each error of the system.
#[derive(Drop)]
pub struct OsSink<'r, R> {
    rt: &'r R,
    faults: u64,
}

impl<'r, R: Print> OsSink<'r, R> {
    /// A sink that has counted no fault.
    pub fn new(rt: &'r R) -> OsSink<'r, R>
        ensures { result.faults ≡ 0 }
    {
        OsSink { rt, faults: 0 }
    }
}

impl<'r, R: Print> Sink for OsSink<'r, R> {
    ghost taken = { λ _. None };

    ghost faults = { λ sink. sink.faults };

    fn put(&mut self, piece: &[u8]) -> Result<(), Fault> {
        match io::writer(self.rt).write_all(piece) {
            Ok(()) => Ok(()),
            Err(_) => {
                self.faults = self.faults.saturating_add(1);
                Err(Fault::Failed)
            }
        }
    }
}
