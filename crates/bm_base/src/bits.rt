ghost use Rattle.std.specs.Prelude.{◌≡◌, ℕ, ◌<◌, ◌↔◌, IsTrue, IfOk, false, length, replicate, slice_get, slice_set, Some};
ghost use Rattle.bm_base.specs.Bits.{bit_of, value_at, ReplacesBit};

use crate::NoMemory;
use std::alloc::{AllocError, Global};
use std::marker::Model;

/// How many values a word holds.
const WORD_BITS: usize = 64;

/// A row of truth values, seen by contracts as their list and packed in words.
#[derive(Debug, Drop)]
pub struct Bits {
    // Value `i` is bit `i % 64` of word `i / 64`, bit 0 being the lowest. The unused bits are 0.
    words: Vec<u64>,
    len: usize,
}

impl Model for Bits {
    ghost use Rattle.std.specs.Prelude.{List, Bool};

    ghost Value = { List Bool };

    ghost use Rattle.bm_base.specs.Bits.{values, IsPacked};

    ghost view = { λ bits. values bits.words.items bits.len };

    ghost invariant = { λ bits. IsPacked bits.words.items bits.len };
}

impl Bits {
    /// A row of this many values, all false.
    pub fn zeros(alloc: Global, len: usize) -> Result<Bits, NoMemory>
        ensures { IfOk result (λ bits. bits ≡ replicate len false) }
    {
        let words = vec![in alloc; 0; len.div_ceil(WORD_BITS)]?;
        Ok(Bits { words, len })
    }

    /// How many values there are.
    pub fn len(&self) -> usize
        ensures { result ≡ length self.now }
    {
        self.len
    }

    /// The value at a place, from 0.
    pub fn get(&self, i: usize) -> bool
        requires { i < length self.now }
        ensures { slice_get self.now i ≡ Some result }
    {
        bit(self.words[i / WORD_BITS], i % WORD_BITS)
    }

    /// Replaces the value at a place, from 0.
    pub fn set(&mut self, i: usize, v: bool)
        requires { i < length self.old }
        ensures { self.new ≡ slice_set self.old i v }
    {
        let at = i / WORD_BITS;
        self.words[at] = with_bit(self.words[at], i % WORD_BITS, v);
    }

    /// Whether both rows have the same values.
    pub fn same(&self, other: &Bits) -> bool
        ensures { IsTrue result ↔ (self.now ≡ other.now) }
    {
        self.len == other.len && same_bits(&self.words, &other.words)
    }
}

impl Clone for Bits {
    ghost is_clone = { λ bits copy. copy ≡ bits };

    fn clone(&self) -> Result<Bits, AllocError> {
        let words = self.words.clone()?;
        Ok(Bits {
            words,
            len: self.len,
        })
    }
}

/// Bit `i` of the word.
fn bit(word: u64, i: usize) -> bool
    requires { i < 64 }
    ensures { result ≡ bit_of word i }
{
    word >> i & 1 == 1
}

/// The word with bit `i` replaced.
fn with_bit(word: u64, i: usize, v: bool) -> u64
    requires { i < 64 }
    ensures { ReplacesBit word result i v }
{
    let mask = 1 << i;
    if v { word | mask } else { word & !mask }
}

/// Whether as many words have the same bits.
fn same_bits(left: &[u64], right: &[u64]) -> bool
    requires { length left.now ≡ length right.now }
    ensures { IsTrue result ↔ ((i : ℕ) → value_at left.now i ≡ value_at right.now i) }
{
    *left == *right
}
