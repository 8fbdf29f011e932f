//! The bits of a number, as its digits give them.
ghost use Rattle.std.specs.Prelude.{◌≡◌, ◌≤◌, ◌∷◌, ◌++◌, [], ℕ, Bool, List, IfOk};
ghost use Rattle.vlog_tree.specs.Spelling.Numbers.{bits_of};
ghost use Rattle.vlog_numbers.specs.Fill.{Holds};

use bm_base::{Bits, NoMemory};
use std::alloc::Global;

/// A row of bits that is filled from the least bit on. Bits past its width are dropped.
#[derive(Drop)]
pub struct Row {
    /// The bits, the least first.
    pub bits: Bits,
    // How many bits were filled in.
    filled: usize,
    /// Whether the bits that were dropped are all zeros.
    pub fits: bool,
}

impl Row {
    /// A row of zeros that is as wide as this.
    pub fn new(alloc: Global, width: usize) -> Result<Row, NoMemory>
        ensures { IfOk result (λ row. Holds width row []) }
    {
        let bits = Bits::zeros(alloc, width)?;
        Ok(Row {
            bits,
            filled: 0,
            fits: true,
        })
    }

    /// Fills in the lowest bits of a value.
    pub fn push(&mut self, value: u128, count: u32)
        requires { count ≤ 128 }
        ensures { (width : ℕ) (given : List Bool) → Holds width self.old given
            → Holds width self.new (given ++ bits_of count value) }
    {
        for i in 0..count {
            self.push_bit(value >> i & 1 == 1);
        }
    }

    fn push_bit(&mut self, bit: bool)
        ensures { (width : ℕ) (given : List Bool) → Holds width self.old given
            → Holds width self.new (given ++ bit ∷ []) }
    {
        if self.filled < self.bits.len() {
            self.bits.set(self.filled, bit);
            self.filled += 1;
        } else if bit {
            self.fits = false;
        }
    }
}
