ghost use Rattle.std.specs.Prelude.{◌≡◌, ◌<◌, IfOk, IfSome, Some, length, option_copied, slice_get};
ghost use Rattle.vcd_writer.specs.Waveform.{check_of};

use bm_base::{Bits, NoMemory};
use std::alloc::Global;
use trace_rows::Trace;

/// What a waveform shows of one cycle.
#[derive(Debug, Drop)]
pub(crate) struct Cycle {
    /// The input bits.
    pub row: Vec<bool>,
    /// The checker bit, where there are checker bits.
    pub check: Option<bool>,
}

/// The cycle of row `i`.
pub(crate) fn cycle_at(
    alloc: Global,
    t: &Trace,
    bad: Option<&Bits>,
    i: usize,
) -> Result<Cycle, NoMemory>
    requires row { i < length t.now.rows }
    requires check { IfSome (option_copied bad) (λ checks. i < length checks) }
    ensures row { IfOk result (λ cycle. slice_get t.now.rows i ≡ Some cycle.row.items) }
    ensures width { IfOk result (λ cycle. length cycle.row.items ≡ t.now.width) }
    ensures check { IfOk result (λ cycle. cycle.check ≡ check_of (option_copied bad.entry) i) }
{
    let row = values(alloc, t.row(i))?;
    let check = bad.map(|checks| checks.get(i));
    Ok(Cycle { row, check })
}

fn values(alloc: Global, bits: &Bits) -> Result<Vec<bool>, NoMemory>
    ensures { IfOk result (λ values. values.items ≡ bits.now) }
{
    let mut values = Vec::new(alloc);
    for i in 0..bits.len() {
        values.push(bits.get(i))?;
    }
    Ok(values)
}
