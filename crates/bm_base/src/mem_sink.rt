ghost use Rattle.std.specs.Prelude.{◌≡◌, ◌≤◌, OnOk, OnErr, IsErrOf, IsSomeAnd, Some};
ghost use Rattle.bm_base.specs.Script.{planned, planning};
ghost use Rattle.bm_base.specs.MemSink.{empty_sink, after_put, after_failed_put};

use crate::script::Script;
use crate::{Fault, NoMemory, Sink};
use std::alloc::Global;
use std::marker::Model;

/// Printed bytes in memory, whose calls fail where told. A call that is answered `Memory` is not counted, and leaves
/// the sink as it was.
#[derive(Debug, Drop)]
pub struct MemSink {
    taken: Vec<u8>,
    faults: u64,
    script: Script,
}

impl Model for MemSink {
    ghost use Rattle.bm_base.specs.MemSink.{SinkState};

    ghost Value = { SinkState };

    ghost view = { λ a. record { taken = a.taken.items; faults = a.faults; script = a.script } };
}

impl MemSink {
    /// A sink that has taken nothing, and of which no call is to fail.
    pub fn new(alloc: Global) -> MemSink
        ensures { result ≡ empty_sink }
    {
        MemSink {
            taken: Vec::new(alloc),
            faults: 0,
            script: Script::new(alloc),
        }
    }

    /// The bytes so far.
    pub fn bytes(&self) -> &[u8]
        ensures { result.now ≡ self.now.taken }
    {
        self.taken.as_slice()
    }

    /// Plans that the nth `put`, counted from 0, fails. It then keeps the first `keep` bytes of its piece, or the whole
    /// piece if it is shorter. The newest plan for a call wins.
    pub fn fail(&mut self, nth: u64, keep: usize) -> Result<(), NoMemory>
        ensures ok { OnOk result (self.new ≡ record self.old { script = planning nth keep self.old.script }) }
        ensures err { OnErr result (self.new ≡ self.old) }
    {
        self.script.fail(nth, keep)
    }
}

impl Sink for MemSink {
    ghost taken = { λ sink. Some sink.taken };

    ghost faults = { λ sink. sink.faults };

    fn put(&mut self, piece: &[u8]) -> Result<(), Fault>
        ensures unplanned { OnOk result (planned self.old.script ≡ None) }
        ensures ok { OnOk result (self.new ≡ after_put piece.now self.old) }
        ensures failed { IsErrOf result Fault.Failed
            → IsSomeAnd (planned self.old.script) (λ keep. self.new ≡ after_failed_put piece.now keep self.old) }
        ensures grows { self.old.faults ≤ self.new.faults }
        ensures memory { IsErrOf result Fault.Memory → self.new ≡ self.old }
    {
        match self.script.planned() {
            None => {
                self.taken.extend_from_slice(piece)?;
                self.script.pass();
                Ok(())
            }
            Some(keep) => {
                let kept = &piece[..keep.min(piece.len())];
                self.taken.extend_from_slice(kept)?;
                self.faults = self.faults.saturating_add(1);
                self.script.pass();
                Err(Fault::Failed)
            }
        }
    }
}
