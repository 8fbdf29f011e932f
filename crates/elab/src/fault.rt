//! Why a design is refused.
ghost use Rattle.std.specs.Prelude.{◌≡◌};
ghost use Rattle.elab.specs.declared.fault.ElabFault.TheVariants.{Memory};

use bm_base::{Name, NoMemory};

/// The first rule that fails, with what is printed of its first place, or want of memory.
#[derive(Debug, Drop)]
pub enum ElabFault {
    /// The rule's number, of E1 to E13; the name of the module, which is empty where the name is printed alone; and the
    /// name within it.
    Rule {
        rule: u8,
        module_name: Name,
        name: Name,
    },
    Memory,
}

impl From<NoMemory> for ElabFault {
    ghost from_gives = { λ _ fault. fault ≡ Memory };

    fn from(_: NoMemory) -> ElabFault {
        ElabFault::Memory
    }
}
