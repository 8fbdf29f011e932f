//! How a run of a design begins.
ghost use Rattle.std.specs.Prelude.{◌≡◌, IfOk};
ghost use Rattle.std.specs.Option.{option_map};
ghost use Rattle.elab.specs.Placed.{bits_before, setup_with};
ghost use Rattle.elab.specs.Plans.{reset_at};

use crate::names::Names;
use bm_base::{Name, NoMemory};
use flat_net::{Reset, Setup};
use trace_rows::PortLabel;

/// The reset's place among the bits of these ports, and the reset cycles.
pub(crate) fn setup_of(ports: &[PortLabel], names: &Names) -> Result<Setup, NoMemory>
    ensures { IfOk result (λ setup. setup ≡ setup_with names.now ports.now) }
{
    let reset = match &names.reset {
        Some((name, active)) => reset_of(bits_before(ports, name)?, *active),
        None => None,
    };
    Ok(Setup {
        reset,
        cycles: names.reset_cycles,
    })
}

fn reset_of(bit: Option<u64>, active: bool) -> Option<Reset>
    ensures { result ≡ option_map (reset_at active) bit }
{
    match bit {
        Some(bit) => Some(Reset { bit, active }),
        None => None,
    }
}

// How many bits stand before those of the port with this name, if there is one.
fn bits_before(ports: &[PortLabel], name: &Name) -> Result<Option<u64>, NoMemory>
    ensures { IfOk result (λ bits. bits ≡ bits_before ports.now name.now) }
{
    let mut bits = 0_u64;
    for port in ports {
        if *port.name.bytes() == *name.bytes() {
            return Ok(Some(bits));
        }
        // No memory holds ports with so many bits.
        let Some(more) = bits.checked_add(u64::from(port.width)) else {
            return Err(NoMemory);
        };
        bits = more;
    }
    Ok(None)
}
