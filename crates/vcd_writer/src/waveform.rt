ghost use Rattle.std.specs.Prelude.{◌≡◌, ◌<◌, IfOk, IfSome, length, option_copied};
ghost use Rattle.vcd_writer.specs.Value.{row_width};
ghost use Rattle.vcd_writer.specs.Waveform.{vcd};

use crate::cycle::cycle_at;
use crate::header::put_header;
use crate::row::{put_edge, put_first, put_row};
use bm_base::{Bits, NoMemory};
use std::alloc::Global;
use trace_rows::{Labels, Trace};

/// The text of the waveform that shows these rows, with the checker's bit of each where `bad` gives them.
///
/// Row `i` stands at `10 * i` ns with the clock at 0, and each but the last is followed by an edge, 5 ns later, at
/// which the clock is 1. After the first row only the clock and what has changed is written. The only error is want of
/// memory.
#[tactic(auto, unfolding(crate::specs::Waveform::vcd))]
pub fn vcd_text(
    alloc: Global,
    t: &Trace,
    labels: &Labels,
    bad: Option<&Bits>,
) -> Result<Vec<u8>, NoMemory>
    requires rows { 0 < length t.now.rows }
    requires width { t.now.width ≡ row_width labels.now.ports }
    requires checks { IfSome (option_copied bad) (λ checks. length checks ≡ length t.now.rows) }
    ensures { IfOk result (λ text.
        text.items ≡ vcd t.now.rows labels.now (option_copied bad.entry)) }
{
    let ports = labels.ports.as_slice();
    let mut text = Vec::new(alloc);
    put_header(&mut text, labels, bad.is_some())?;
    let mut before = cycle_at(alloc, t, bad, 0)?;
    put_first(&mut text, ports, &before)?;
    for i in 1..t.len() {
        let now = cycle_at(alloc, t, bad, i)?;
        put_edge(&mut text, i - 1)?;
        put_row(&mut text, ports, i, &before, &now)?;
        before = now;
    }
    Ok(text)
}
