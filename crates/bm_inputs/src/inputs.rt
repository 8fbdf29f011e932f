//! The netlist and the waveform of a command.
ghost use Rattle.std.specs.Prelude.{◌≡◌, IfErr, IfOk, length};
ghost use Rattle.bm_base.specs.Counts.{SameCounts};
ghost use Rattle.bm_words.specs.Asked.{given_inputs};
ghost use Rattle.bm_inputs.specs.Counts.{OthersStay};
ghost use Rattle.bm_inputs.specs.Files.{files_of};
ghost use Rattle.bm_inputs.specs.Reading.{ReadsInputs, StopsAtFiles, reading_of};

use crate::netlist::read_netlist;
use crate::stop::InputStop;
use crate::waveform::read_waveform;
use bm_base::Shelf;
use bm_words::Inputs;
use levelise::Levelled;
use std::alloc::Global;
use trace_rows::{Labels, Trace};

/// What the netlist and the waveform of a command are.
#[derive(Drop)]
pub struct Input {
    /// The machine of the netlist.
    pub level: Levelled,
    /// What the bits of a row are.
    pub labels: Labels,
    pub trace: Trace,
    /// How many bits the waveform gives as `x` or `z`.
    pub unknown: u64,
}

/// Reads the netlist and then the waveform.
pub fn read_inputs<F: Shelf>(
    alloc: Global,
    asked: &Inputs<'_>,
    shelf: &mut F,
) -> Result<Input, InputStop>
    ensures held { F.held shelf.new ≡ F.held shelf.old }
    ensures reads { OthersStay (files_of (given_inputs asked.now)) (F.reads shelf.old) (F.reads shelf.new) }
    ensures writes { SameCounts (F.writes shelf.old) (F.writes shelf.new) }
    ensures read { IfOk result (λ input. ReadsInputs (given_inputs asked.now) (F.held shelf.old) input.level
        input.labels (reading_of input)) }
    ensures stops { IfErr result (StopsAtFiles (given_inputs asked.now) (F.held shelf.old) (F.reads shelf.old)
        (F.reads shelf.new)) }
{
    let netlist = read_netlist(alloc, asked, shelf)?;
    let registers = register_count(&netlist.level);
    let (trace, unknown) = read_waveform(
        alloc,
        shelf,
        asked.waveform,
        &netlist.labels,
        asked.scope,
        registers,
    )?;
    Ok(Input {
        level: netlist.level,
        labels: netlist.labels,
        trace,
        unknown,
    })
}

// How many registers there are, fewer than nodes.
fn register_count(level: &Levelled) -> u32
    ensures { result ≡ length level.now.net.power_up }
{
    let _nodes = level.net().nodes();
    level.net().power_up().len() as u32
}
