ghost use Rattle.std.specs.Prelude.{◌≡◌, ◌+◌, ◌-◌, ◌*◌, ◌&&◌, nat_le, if◌then◌else◌, Some, None};
ghost use Rattle.std.specs.Char.{is_ascii_digit};
ghost use Rattle.vcd_header.specs.Decimals.{number_up_to};

/// The number that the text writes, if it is one of at most this much.
pub fn number_up_to(most: u64, text: &[u8]) -> Option<u64>
    ensures { result ≡ number_up_to most text.now }
{
    if text.is_empty() {
        return None;
    }
    let mut value = 0;
    for &digit in text {
        match with_digit(most, value, digit) {
            Some(longer) => value = longer,
            None => return None,
        }
    }
    Some(value)
}

// The number with one more digit behind it, if it is one of at most this much.
fn with_digit(most: u64, value: u64, digit: u8) -> Option<u64>
    ensures { result ≡ (if is_ascii_digit digit && nat_le (10 * value + (digit - 48)) most
        then Some (10 * value + (digit - 48)) else None) }
{
    if !digit.is_ascii_digit() {
        return None;
    }
    let longer = 10 * u128::from(value) + u128::from(digit - b'0');
    if longer <= u128::from(most) {
        Some(longer as u64)
    } else {
        None
    }
}
