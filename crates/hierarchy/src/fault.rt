//! Why the modules of a design are refused.
ghost use Rattle.std.specs.Prelude.{◌≡◌};
ghost use Rattle.hierarchy.specs.declared.fault.HierarchyFault.TheVariants.{Memory};

use crate::failure::Failure;
use bm_base::NoMemory;

/// The first rule on modules that fails, with the place at which it does, or want of memory.
#[derive(Clone, Copy, Debug, PartialEq, Eq)]
pub enum HierarchyFault<'a> {
    /// A module has the name of an earlier one.
    RepeatedModule(Failure<'a>),
    /// No module has the name of the top.
    NoTop(Failure<'a>),
    /// An instance has no module, leads back to the module where it stands, or ends a path that is too long.
    BadInstance(Failure<'a>),
    Memory,
}

impl<'a> From<NoMemory> for HierarchyFault<'a> {
    ghost from_gives = { λ _ fault. fault ≡ Memory };

    fn from(_: NoMemory) -> HierarchyFault<'a> {
        HierarchyFault::Memory
    }
}
