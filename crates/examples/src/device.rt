//! Calls of a shelf and a sink that are to fail.
use crate::trouble::Trouble;
use bm_base::{Call, MemShelf, MemSink};

/// A kind of call of the device: of the shelf, or `put` of the sink.
#[derive(Clone, Copy)]
pub enum Kind {
    Shelf(Call),
    Put,
}

/// A call that is to fail: the nth of its kind, from 0, which keeps so many bytes of what it is given.
#[derive(Clone, Copy)]
pub struct Failing {
    pub kind: Kind,
    pub nth: u64,
    pub keep: usize,
}

impl Kind {
    /// The kind of this name.
    pub fn named(name: &str) -> Result<Kind, Trouble> {
        match name {
            "len" => Ok(Kind::Shelf(Call::Len)),
            "read" => Ok(Kind::Shelf(Call::Read)),
            "create" => Ok(Kind::Shelf(Call::Create)),
            "append" => Ok(Kind::Shelf(Call::Append)),
            "put" => Ok(Kind::Put),
            _ => Err(Trouble::Words),
        }
    }
}

impl Failing {
    /// Plans it at the shelf or the sink.
    pub fn plan(&self, shelf: &mut MemShelf, sink: &mut MemSink) -> Result<(), Trouble> {
        match self.kind {
            Kind::Shelf(call) => shelf.fail(call, self.nth, self.keep)?,
            Kind::Put => sink.fail(self.nth, self.keep)?,
        }
        Ok(())
    }
}
