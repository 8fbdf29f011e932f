//! The names that a command is given.
ghost use Rattle.std.specs.Prelude.{◌≡◌, IfOk};
ghost use Rattle.std.specs.Option.{option_map};
ghost use Rattle.bm_words.specs.Names.{names_of, reset_of};
ghost use Rattle.bm_inputs.specs.Files.{given};

use bm_base::{Name, NoMemory};
use bm_words::{Names, Reset};
use std::alloc::Global;

/// The names as the rules take them.
pub(crate) fn given_names(alloc: Global, names: &Names<'_>) -> Result<elab::Names, NoMemory>
    ensures { IfOk result (λ names_given. names_given ≡ given (names_of names.now)) }
{
    let top = Name::new(alloc, names.top.as_bytes())?;
    let clock = Name::new(alloc, names.clock.as_bytes())?;
    let check = Name::new(alloc, names.check.as_bytes())?;
    let reset = given_reset(alloc, names.reset)?;
    Ok(elab::Names {
        top,
        clock,
        check,
        reset,
        reset_cycles: names.reset_cycles,
    })
}

fn given_reset(alloc: Global, reset: Option<Reset<'_>>) -> Result<Option<(Name, bool)>, NoMemory>
    ensures { IfOk result (λ found. found ≡ option_map reset_of reset.entry) }
{
    match reset {
        Some(reset) => Ok(Some((Name::new(alloc, reset.name.as_bytes())?, reset.active))),
        None => Ok(None),
    }
}
