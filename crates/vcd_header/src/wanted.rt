ghost use Rattle.std.specs.Prelude.{◌≡◌, ◌++◌, ◌<◌, IfOk, OnOk, map};
ghost use Rattle.vcd_header.specs.Matching.{index_at, port_bit, port_bits, wanted};
ghost use Rattle.vcd_header.specs.Bits.{wanted_of};

use bm_base::{NoMemory, Range};
use std::alloc::Global;
use trace_rows::{Labels, PortLabel};

/// A bit that a waveform is to give: the clock, or one of an input port.
#[derive(Clone, Copy)]
pub(crate) struct WantedBit<'a> {
    /// The signal's name.
    pub name: &'a [u8],
    /// How many bits the signal has.
    pub width: u32,
    /// The index by which a select names the bit.
    pub index: u64,
    /// The bit's place in the signal, from its right end, from 0.
    pub position: u32,
}

/// The clock, and then the bits of the ports in the order of the rows.
pub(crate) fn wanted(alloc: Global, labels: &Labels) -> Result<Vec<WantedBit<'_>>, NoMemory>
    ensures { IfOk result (λ bits. map wanted_of bits.items ≡ wanted labels.now) }
{
    let mut bits = Vec::new(alloc);
    bits.push(WantedBit {
        name: labels.clock.bytes(),
        width: 1,
        index: 0,
        position: 0,
    })?;
    for port in labels.ports.as_slice() {
        push_port(&mut bits, port)?;
    }
    Ok(bits)
}

fn push_port<'a>(bits: &mut Vec<WantedBit<'a>>, port: &'a PortLabel) -> Result<(), NoMemory>
    ensures { OnOk result (map wanted_of bits.new.items ≡ map wanted_of bits.old.items ++ port_bits port.now) }
{
    for position in 0..port.width {
        bits.push(port_bit(port, position))?;
    }
    Ok(())
}

fn port_bit(port: &PortLabel, position: u32) -> WantedBit<'_>
    ensures { wanted_of result ≡ port_bit port.now position }
{
    WantedBit {
        name: port.name.bytes(),
        width: port.width,
        index: index_at(port.range, position),
        position,
    }
}

// The index of a position, which is counted from the right end of the range.
fn index_at(range: Option<Range>, position: u32) -> u64
    ensures { result ≡ index_at range position }
{
    match range {
        None => u64::from(position),
        Some(range) => {
            if range.right <= range.left {
                u64::from(range.right) + u64::from(position)
            } else {
                u64::from(range.right.saturating_sub(position))
            }
        }
    }
}
