ghost use Rattle.std.specs.Prelude.{◌≤◌};

use crate::run::Run;

/// A name or a select of it where it is assigned.
#[derive(Debug, Drop)]
pub(crate) struct Select<'a> {
    /// The byte offset.
    pub(crate) at: u64,
    pub(crate) name: &'a [u8],
    pub(crate) bits: Run,
    ghost forward: { bits.first ≤ bits.last },
}
