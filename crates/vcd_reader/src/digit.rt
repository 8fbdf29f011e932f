ghost use Rattle.std.specs.Prelude.{◌≡◌, ◌<◌, ◌≤◌, ◌==◌, ℕ, All, length, map, if◌then◌else◌};
ghost use Rattle.std.specs.List.{count_by};
ghost use Rattle.vcd_header.specs.Bits.{source_shown};
ghost use Rattle.vcd_reader.specs.Values.{digit_at, digit_given, extension, is_unknown, is_unknown_digit, value_after};
ghost use Rattle.vcd_reader.specs.Targets.{is_unknown_at, with_digits};

use bm_base::Bits;
use vcd_header::BitSource;

/// A bit that a variable gives.
#[derive(Clone, Copy)]
pub(crate) struct Target {
    /// The bit's place among the inputs.
    pub bit: usize,
    /// Which of the variable's digits it is, from the right end, from 0.
    pub digit: u64,
}

/// Gives the bits their digits of a value, the left one first.
pub(crate) fn put_digits(values: &mut Bits, targets: &[Target], digits: &[u8])
    requires { All (λ target. target.bit < length values.old) targets.now }
    ensures { values.new ≡ with_digits digits.now targets.now values.old }
{
    for target in targets {
        values.set(target.bit, digit_at(digits, target.digit) == b'1');
    }
}

/// How many of the bits get `x` or `z`.
pub(crate) fn unknown_digits(targets: &[Target], digits: &[u8]) -> u64
    ensures count { result ≡ count_by (is_unknown_at digits.now) targets.now }
    ensures most { result ≤ length targets.now }
{
    let mut count = 0;
    for target in targets {
        if is_unknown_digit(digit_at(digits, target.digit)) {
            count += 1;
        }
    }
    count
}

/// The digit that a change of a code gives to the bit of a source, if it gives one.
pub(crate) fn digit_given(source: BitSource, code: &[u8], digits: &[u8]) -> Option<u8>
    ensures { (time : ℕ) → result
        ≡ digit_given (source_shown source.entry) (record { time = time; code = code.now; digits = digits.now }) }
{
    if code == source.code {
        Some(digit_at(digits, source.digit))
    } else {
        None
    }
}

/// A bit that had this value, behind a change that gives it this digit, if it gives one.
pub(crate) fn value_after(value: bool, given: Option<u8>) -> bool
    ensures { result ≡ value_after value given }
{
    match given {
        Some(digit) => digit == b'1',
        None => value,
    }
}

/// How many bits get `x` or `z` by this digit, if there is one.
pub(crate) fn count_unknown(given: Option<u8>) -> u64
    ensures { result ≡ (if is_unknown given then 1 else 0) }
{
    match given {
        Some(digit) => u64::from(is_unknown_digit(digit)),
        None => 0,
    }
}

// The digit at a position from the right end.
fn digit_at(digits: &[u8], position: u64) -> u8
    ensures { result ≡ digit_at digits.now position }
{
    if position < digits.len() as u64 {
        digits[digits.len() - (position as usize + 1)]
    } else {
        match digits.first() {
            Some(digit) => extension(*digit),
            None => 0,
        }
    }
}

// What stands left of the leftmost digit.
fn extension(digit: u8) -> u8
    ensures { result ≡ extension digit }
{
    if digit == b'0' || digit == b'1' {
        b'0'
    } else {
        digit
    }
}

fn is_unknown_digit(digit: u8) -> bool
    ensures { result ≡ is_unknown_digit digit }
{
    !(digit == b'0' || digit == b'1')
}
