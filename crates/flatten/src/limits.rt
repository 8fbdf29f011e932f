//! The limits on registers and on inputs.
ghost use Rattle.std.specs.Prelude.{◌≡◌, IfErr, None, OnOk};
ghost use Rattle.flat_design.specs.Sizes.{first_too_large};
ghost use Rattle.flatten.specs.Tested.{RefusesBy, last_sizes};

use bm_base::Size;
use flat_net::FlatFault;

/// Whether so many registers and inputs are not too many.
pub(crate) fn within_limits(registers: usize, inputs: usize) -> Result<(), FlatFault>
    ensures within { OnOk result (first_too_large (last_sizes registers inputs) ≡ None) }
    ensures fault { IfErr result (RefusesBy (last_sizes registers inputs)) }
{
    if registers as u64 > Size::Registers.limit() {
        return Err(FlatFault::TooLarge {
            what: Size::Registers,
        });
    }
    if inputs as u64 > Size::Inputs.limit() {
        return Err(FlatFault::TooLarge { what: Size::Inputs });
    }
    Ok(())
}
