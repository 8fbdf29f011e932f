ghost use Rattle.std.specs.Prelude.{◌≡◌, ◌+◌, ◌*◌, ◌^◌, ◌<◌, ◌≤◌, ◌↔◌, All, length, slice_get, Some, IfOk, IsTrue, OnOk, OnErr};
ghost use Rattle.trace_rows.specs.Events.{change_count};

use bm_base::{Bits, NoMemory};
use std::alloc::Global;
use std::marker::Model;

/// A list of rows of one width, one per cycle.
#[derive(Debug, Drop)]
pub struct Trace {
    width: usize,
    rows: Vec<Bits>,
}

impl Model for Trace {
    ghost use Rattle.std.specs.Prelude.{◌≡◌, ◌*◌, ◌<◌, ◌^◌, length, vec_len, All};
    ghost use Rattle.trace_rows.specs.Rows.{Rows};

    ghost Value = { Rows };

    ghost view = { λ trace. record { width = trace.width; rows = trace.rows.items } };

    ghost invariant = { λ trace. All (λ row. length row ≡ trace.width) trace.rows.items
        × (vec_len trace.rows * trace.width < 2 ^ 64) };
}

impl Trace {
    ghost use Rattle.trace_rows.specs.Cut.{cut_rows};
    ghost use Rattle.trace_rows.specs.Events.{event_count};
    ghost use Rattle.trace_rows.specs.Rows.{Rows, no_rows, with_row, first_rows, bit_of};

    /// A trace of no rows, whose rows are to have this many bits.
    pub fn new(alloc: Global, width: usize) -> Trace
        ensures { result ≡ no_rows width }
    {
        Trace {
            width,
            rows: Vec::new(alloc),
        }
    }

    /// Adds a copy of the row at the end. A trace whose bits would be 2^64 or more answers want of memory.
    pub fn push(&mut self, row: &Bits) -> Result<(), NoMemory>
        requires { length row.now ≡ self.old.width }
        ensures ok { OnOk result (self.new ≡ with_row self.old row.now) }
        ensures err { OnErr result (self.new ≡ self.old) }
    {
        if !fits(self.rows.len(), self.width) {
            return Err(NoMemory);
        }
        let row = row.clone()?;
        self.rows.push(row)?;
        Ok(())
    }

    /// How many rows there are.
    pub fn len(&self) -> usize
        ensures len { result ≡ length self.now.rows }
        ensures bits { length self.now.rows * self.now.width < 2 ^ 64 }
    {
        self.rows.len()
    }

    /// How many bits a row has.
    pub fn width(&self) -> usize
        ensures width { result ≡ self.now.width }
        ensures rows { All (λ row. length row ≡ self.now.width) self.now.rows }
    {
        self.width
    }

    /// Bit `b` of row `t`.
    pub fn bit(&self, t: usize, b: usize) -> bool
        requires row { t < length self.now.rows }
        requires bit { b < self.now.width }
        ensures { bit_of self.now.rows t b ≡ Some result }
    {
        self.rows[t].get(b)
    }

    /// Row `t`.
    pub fn row(&self, t: usize) -> &Bits
        requires { t < length self.now.rows }
        ensures row { slice_get self.now.rows t ≡ Some result.now }
        ensures width { length result.now ≡ self.now.width }
    {
        &self.rows[t]
    }

    /// Keeps the first `n` rows.
    pub fn keep(&mut self, n: usize)
        requires { n ≤ length self.old.rows }
        ensures { self.new ≡ first_rows n self.old }
    {
        self.rows.truncate(n);
    }

    /// A copy without row `i`, for the deletion of a cycle.
    pub fn cut_copy(&self, alloc: Global, i: usize) -> Result<Trace, NoMemory>
        requires { i < length self.now.rows }
        ensures { IfOk result (λ copy. copy ≡ cut_rows i self.now) }
    {
        let mut copy = Trace::new(alloc, self.width);
        for (t, row) in self.rows.iter().enumerate() {
            if t != i {
                copy.push(row)?;
            }
        }
        Ok(copy)
    }

    /// How many bits change from one row to the next, where the first row follows `base`.
    pub fn events(&self, base: &Bits) -> u64
        requires { length base.now ≡ self.now.width }
        ensures { result ≡ event_count base.now self.now.rows }
    {
        let mut count = 0;
        let mut before = base;
        for row in &self.rows {
            count += changes(before, row);
            before = row;
        }
        count
    }
}

// In how many bits two rows of one width differ.
fn changes(before: &Bits, after: &Bits) -> u64
    requires { length after.now ≡ length before.now }
    ensures { result ≡ change_count before.now after.now (length before.now) }
{
    let mut count = 0;
    for b in 0..before.len() {
        if before.get(b) != after.get(b) {
            count += 1;
        }
    }
    count
}

// Whether the bits of one row more can still be counted.
fn fits(rows: usize, width: usize) -> bool
    requires { rows + 1 < 2 ^ 64 }
    ensures { IsTrue result ↔ ((rows + 1) * width < 2 ^ 64) }
{
    (rows + 1).checked_mul(width).is_some()
}
