ghost use Rattle.std.specs.Prelude.{◌≡◌, IfOk};
ghost use Rattle.std.specs.Rc.{rc_slice_items};

use crate::NoMemory;
use std::alloc::{AllocError, Global};
use std::marker::Model;
use std::rc::RcSlice;

/// A name of a netlist or of a waveform: any bytes, seen by contracts as their list. The text is shared: a clone takes
/// no memory for it.
#[derive(Debug, Drop)]
pub struct Name {
    text: RcSlice<u8>,
}

impl Model for Name {
    ghost use Rattle.std.specs.Prelude.{List, ℕ};
    ghost use Rattle.std.specs.Rc.{rc_slice_items};

    ghost Value = { List ℕ };

    ghost view = { λ name. rc_slice_items name.text };
}

impl Name {
    /// Copies the bytes.
    pub fn new(alloc: Global, text: &[u8]) -> Result<Name, NoMemory>
        ensures { IfOk result (λ name. name ≡ text.now) }
    {
        let text = RcSlice::from_slice(alloc, text)?;
        Ok(Name { text })
    }

    pub fn bytes(&self) -> &[u8]
        ensures { result.now ≡ self.now }
    {
        self.text.as_slice()
    }
}

impl Clone for Name {
    ghost is_clone = { λ name copy. copy ≡ name };

    fn clone(&self) -> Result<Name, AllocError> {
        let text = self.text.clone()?;
        Ok(Name { text })
    }
}
