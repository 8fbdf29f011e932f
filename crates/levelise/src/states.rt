//! The states of a run.
ghost use Rattle.std.specs.Prelude.{◌≡◌, ◌<◌, ◌∷◌, ◌++◌, OnOk, Some, [], length, slice_get};

use bm_base::{Bits, NoMemory};
use std::alloc::Global;
use std::marker::Model;

/// The states in which the cycles of a run begin, and the one after the last.
#[derive(Debug, Drop)]
pub struct States {
    states: Vec<Bits>,
}

impl Model for States {
    ghost use Rattle.std.specs.Prelude.{List, Bool};

    ghost Value = { List (List Bool) };

    ghost view = { λ it. it.states.items };
}

impl States {
    pub(crate) fn new(alloc: Global) -> States
        ensures { result ≡ [] }
    {
        States {
            states: Vec::new(alloc),
        }
    }

    /// Adds a copy of a state.
    pub(crate) fn push(&mut self, state: &Bits) -> Result<(), NoMemory>
        ensures { OnOk result (self.new ≡ self.old ++ state.now ∷ []) }
    {
        let state = state.clone()?;
        self.states.push(state)?;
        Ok(())
    }

    /// How many states there are: one more than cycles.
    pub fn len(&self) -> usize
        ensures { result ≡ length self.now }
    {
        self.states.len()
    }

    /// The state in which a cycle begins. The one after the last cycle has their number.
    pub fn get(&self, i: usize) -> &Bits
        requires { i < length self.now }
        ensures { slice_get self.now i ≡ Some result.now }
    {
        &self.states[i]
    }
}
