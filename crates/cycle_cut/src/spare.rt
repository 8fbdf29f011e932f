//! Memory that is taken once.
ghost use Rattle.std.specs.Prelude.{IfOk};
ghost use Rattle.cycle_cut.specs.Runs.{HasRoom};

use bm_base::{Bits, NoMemory};
use levelise::Levelled;
use std::alloc::Global;

/// What a run is done in: the state before a cycle, the one after it, and a bit for each node.
#[derive(Drop)]
pub(crate) struct Spare {
    pub(crate) before: Bits,
    pub(crate) after: Bits,
    pub(crate) work: Bits,
}

impl Spare {
    pub(crate) fn new(alloc: Global, net: &Levelled) -> Result<Spare, NoMemory>
        ensures { IfOk result (HasRoom net.now) }
    {
        let registers = net.registers();
        Ok(Spare {
            before: Bits::zeros(alloc, registers)?,
            after: Bits::zeros(alloc, registers)?,
            work: net.work(alloc)?,
        })
    }
}
