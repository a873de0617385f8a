//! Decimal numbers, digit by digit.
ghost use Rattle.std.specs.Prelude.{◌≡◌, ◌+◌, ◌*◌, ◌-◌, ◌≤◌, ◌&&◌, nat_le, IfSome};
ghost use Rattle.digit_texts.specs.Digits.{is_digit, capped_number, kept_number, number_up_to, written_from};

use crate::digit::are_digits;

/// A number that is kept in 32 bits, with one digit more.
fn with_digit(before: u32, digit: u8) -> u32
    ensures { result ≡ capped_number (before * 10 + (digit - 48)) }
{
    before
        .saturating_mul(10)
        .saturating_add(u32::from(digit.saturating_sub(b'0')))
}

/// The number that digits write; one above 4,294,967,295 is kept as that number.
pub fn number_value(digits: &[u8]) -> u32
    ensures { result ≡ capped_number (written_from 0 digits.now) }
{
    let mut value = 0;
    for digit in digits {
        value = with_digit(value, *digit);
    }
    value
}

/// A decimal number with any number of leading zeros; one above 4,294,967,295 is kept as that number.
pub fn kept_number(digits: &[u8]) -> Option<u32>
    ensures { result ≡ kept_number digits.now }
{
    if are_digits(digits) {
        Some(number_value(digits))
    } else {
        None
    }
}

fn is_next_digit(most: u64, value: u64, digit: u8) -> bool
    requires { value ≤ most }
    ensures { result ≡ (is_digit digit && nat_le (value * 10 + (digit - 48)) most) }
{
    digit.is_ascii_digit() && u128::from(value) * 10 + u128::from(digit - b'0') <= u128::from(most)
}

/// A decimal number of at most `most`, with any number of leading zeros.
pub fn number_up_to(most: u64, digits: &[u8]) -> Option<u64>
    ensures value { result ≡ number_up_to most digits.now }
    ensures within { IfSome result (λ number. number ≤ most) }
{
    if digits.is_empty() {
        return None;
    }
    let mut value = 0;
    for digit in digits {
        if !is_next_digit(most, value, *digit) {
            return None;
        }
        value = value * 10 + u64::from(*digit - b'0');
    }
    Some(value)
}
