//! The values of digits.
ghost use Rattle.std.specs.Prelude.{◌≡◌, ◌==◌, ◌||◌, ◌≤◌, ◌+◌, ◌*◌, ◌-◌, nat_le, if◌then◌else◌, Some, None};
ghost use Rattle.std.specs.Char.{is_ascii_digit};
ghost use Rattle.std.specs.List.{list_all};
ghost use Rattle.vlog_tree.specs.Spelling.Numbers.{digit_value, is_decimal_value, is_lone_unknown, is_unknown};
ghost use Rattle.vlog_tree.specs.Spelling.Parts.{decimal_value};

/// The value of decimal digits, among which other bytes are passed over, if it is no greater than `most`.
pub fn decimal_at_most(digits: &[u8], most: u128) -> Option<u128>
    ensures { result ≡ (if nat_le (decimal_value digits.now) most then Some (decimal_value digits.now) else None) }
{
    let mut value: u128 = 0;
    for digit in digits {
        if digit.is_ascii_digit() {
            value = with_digit(value, *digit, most)?;
        }
    }
    Some(value)
}

/// The value with one more digit behind it, if it is no greater than `most`.
fn with_digit(value: u128, digit: u8, most: u128) -> Option<u128>
    requires { 48 ≤ digit }
    ensures { result ≡ (if nat_le (10 * value + (digit - 48)) most then Some (10 * value + (digit - 48)) else None) }
{
    let longer = value.checked_mul(10)?.checked_add((digit - b'0') as u128)?;
    if longer > most { None } else { Some(longer) }
}

/// The value of decimal digits and `_`, if there is nothing else and it is below 2^128.
pub fn whole_decimal(digits: &[u8]) -> Option<u128>
    ensures { result ≡ (if is_decimal_value digits.now then Some (decimal_value digits.now) else None) }
{
    if are_decimal(digits) {
        decimal_at_most(digits, u128::MAX)
    } else {
        None
    }
}

fn are_decimal(digits: &[u8]) -> bool
    ensures { result ≡ list_all (λ digit. is_ascii_digit digit || digit == 95) digits.now }
{
    digits.iter().all(|digit| is_decimal_part(*digit))
}

fn is_decimal_part(byte: u8) -> bool
    ensures { result ≡ (is_ascii_digit byte || byte == 95) }
{
    byte.is_ascii_digit() || byte == b'_'
}

/// What a digit of any base counts, an unknown one 0.
pub fn digit_value(digit: u8) -> u8
    ensures { result ≡ digit_value digit }
{
    if is_unknown(digit) {
        0
    } else if digit >= b'a' {
        digit - b'a' + 10
    } else if digit >= b'A' {
        digit - b'A' + 10
    } else {
        digit.saturating_sub(b'0')
    }
}

/// Whether the digits are one unknown digit.
pub fn is_lone_unknown(digits: &[u8]) -> bool
    ensures { result ≡ is_lone_unknown digits.now }
{
    match digits {
        [digit] => is_unknown(*digit),
        _ => false,
    }
}

fn is_unknown(digit: u8) -> bool
    ensures { result ≡ is_unknown digit }
{
    digit == b'x' || digit == b'X' || digit == b'z' || digit == b'Z' || digit == b'?'
}
