//! Why files give no input.
ghost use Rattle.std.specs.Prelude.{◌≡◌};
ghost use Rattle.bm_inputs.specs.declared.stop.InputStop.TheVariants.{Memory};

use bm_base::{NoMemory, Size};
use netlists::NetlistFault;
use std::alloc::AllocError;
use vcd_header::VcdFault;

/// Why a command's files are refused.
#[derive(Debug, Drop)]
pub enum InputRefusal {
    /// The netlist is refused.
    Netlist(NetlistFault),
    /// The file of the netlist or the waveform is too long.
    Limit(Size),
    /// The waveform is refused, or its rows pass a limit.
    Waveform(VcdFault),
}

/// Why the reading of a command's files ended early.
#[derive(Debug, Drop)]
pub enum InputStop {
    Refused(InputRefusal),
    /// A file could not be read.
    ReadFault,
    Memory,
}

impl From<NetlistFault> for InputStop {
    ghost use Rattle.bm_inputs.specs.Reading.{stop_of_netlist};

    ghost from_gives = { λ fault stop. stop ≡ stop_of_netlist fault };

    fn from(fault: NetlistFault) -> InputStop {
        match fault {
            NetlistFault::Memory => InputStop::Memory,
            _ => InputStop::Refused(InputRefusal::Netlist(fault)),
        }
    }
}

impl From<NoMemory> for InputStop {
    ghost from_gives = { λ _ stop. stop ≡ Memory };

    fn from(_: NoMemory) -> InputStop {
        InputStop::Memory
    }
}

impl From<AllocError> for InputStop {
    ghost from_gives = { λ _ stop. stop ≡ Memory };

    fn from(_: AllocError) -> InputStop {
        InputStop::Memory
    }
}
