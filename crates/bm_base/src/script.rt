ghost use Rattle.std.specs.Prelude.{◌≡◌, OnOk, OnErr};
ghost use Rattle.bm_base.specs.Script.{no_calls, planned, planning, passed};

use crate::NoMemory;
use std::alloc::Global;
use std::collections::VecDeque;
use std::marker::Model;

/// Which calls of one kind are to fail, and how many there were. The newest plan for a call wins.
#[derive(Debug, Drop)]
pub(crate) struct Script {
    asked: u64,
    // The newest first: the call, counted from 0, and how many bytes it keeps.
    plan: VecDeque<(u64, usize)>,
}

impl Model for Script {
    ghost use Rattle.bm_base.specs.Script.{Calls};

    ghost Value = { Calls };

    ghost view = { λ a. record { asked = a.asked; plan = a.plan.items } };
}

impl Script {
    pub(crate) fn new(alloc: Global) -> Script
        ensures { result ≡ no_calls }
    {
        Script {
            asked: 0,
            plan: VecDeque::new(alloc),
        }
    }

    // Plans that the nth call fails.
    pub(crate) fn fail(&mut self, nth: u64, keep: usize) -> Result<(), NoMemory>
        ensures ok { OnOk result (self.new ≡ planning nth keep self.old) }
        ensures err { OnErr result (self.new ≡ self.old) }
    {
        self.plan.push_front((nth, keep))?;
        Ok(())
    }

    // How many bytes the next call keeps, if it is to fail.
    pub(crate) fn planned(&self) -> Option<usize>
        ensures { result ≡ planned self.now }
    {
        for &(nth, keep) in &self.plan {
            if nth == self.asked {
                return Some(keep);
            }
        }
        None
    }

    // Counts one call.
    pub(crate) fn pass(&mut self)
        ensures { self.new ≡ passed self.old }
    {
        self.asked = self.asked.saturating_add(1);
    }
}
