//! What the registers have at power-up.
ghost use Rattle.std.specs.Prelude.{◌≡◌, IfOk, true};
ghost use Rattle.design_laws.specs.Grammar.{design_is_by_grammar};
ghost use Rattle.design_laws.specs.Sound.{IsSound};
ghost use Rattle.frames.specs.Numbered.{setting_with};
ghost use Rattle.vlog_tree.specs.Meaning.Step.{power_up};

use bm_base::{Bits, NoMemory};
use frames::Frames;
use power_up::{add_power_up, laws};
use std::alloc::Global;

/// The bits of all registers at power-up, instance by instance.
pub(crate) fn power_up_of(alloc: Global, frames: &Frames<'_>) -> Result<Bits, NoMemory>
    requires sound { IsSound (setting_with frames.now) }
    requires by_grammar { design_is_by_grammar (setting_with frames.now).design ≡ true }
    ensures { IfOk result (λ bits. bits ≡ power_up (setting_with frames.now)) }
{
    laws::instances();
    let mut bits = Bits::zeros(alloc, frames.registers())?;
    let mut first = 0;
    for place in 0..frames.len() {
        let frame = frames.at(place);
        let places = frame.places();
        add_power_up(&mut bits, places, first);
        first += places.registers();
    }
    Ok(bits)
}
