//! Numbers at the front of a text.
ghost use Rattle.std.specs.Prelude.{◌≡◌, ◌≤◌, ◌<◌, ◌+◌, ◌^◌, length, drop, take, IfSome};
ghost use Rattle.st_lexer.specs.Literals.{digit_value, radix, is_digit_to, begins_with_digit, digits_size, with_digit, value_from, mark, stands_to, base_at, digits_behind, number_to, number_at};
ghost use Rattle.st_lexer.specs.Pieces.{IsWithin};

use s7_base::{front_of, rest_after};

/// How the digits of a number are read.
#[derive(Clone, Copy, Debug, PartialEq, Eq)]
pub enum Base {
    Two,
    Eight,
    Ten,
    Sixteen,
}

/// A number at the front of a text.
#[derive(Clone, Copy, Debug, PartialEq, Eq)]
pub struct Number {
    /// The value; one above the greatest of 64 bits is kept as that.
    pub value: u64,

    /// How many bytes it takes, with what is written before its digits.
    pub size: usize,
}

fn digit_value(b: u8) -> u8
    ensures { result ≡ digit_value b }
{
    match b {
        b'0'..=b'9' => b - b'0',
        b'A'..=b'F' => b - b'A' + 10,
        b'a'..=b'f' => b - b'a' + 10,
        _ => 16,
    }
}

fn radix(base: Base) -> u8
    ensures { result ≡ radix base }
{
    match base {
        Base::Two => 2,
        Base::Eight => 8,
        Base::Ten => 10,
        Base::Sixteen => 16,
    }
}

/// Whether the byte is a digit of the base.
pub fn is_digit_to(base: Base, b: u8) -> bool
    ensures { result ≡ is_digit_to base b }
{
    digit_value(b) < radix(base)
}

/// Whether the text begins with a digit of the base.
pub fn begins_with_digit(base: Base, bytes: &[u8]) -> bool
    ensures { result ≡ begins_with_digit base bytes.now }
{
    match bytes {
        [first, ..] => is_digit_to(base, *first),
        [] => false,
    }
}

fn digits_size(base: Base, bytes: &[u8]) -> usize
    ensures size { result ≡ digits_size base bytes.now }
    ensures within { result ≤ length bytes.now }
{
    let mut size = 0;
    let mut rest = bytes;
    while let [first, ..] = rest {
        let behind = rest_after(rest, 1);
        if !is_digit_to(base, *first) && !(*first == b'_' && begins_with_digit(base, behind)) {
            break;
        }
        size += 1;
        rest = behind;
    }
    size
}

fn with_digit(base: Base, value: u64, digit: u8) -> u64
    ensures { result ≡ with_digit base value digit }
{
    if digit == b'_' {
        value
    } else {
        value
            .saturating_mul(u64::from(radix(base)))
            .saturating_add(u64::from(digit_value(digit)))
    }
}

fn value_of(base: Base, digits: &[u8]) -> u64
    ensures { result ≡ value_from base 0 digits.now }
{
    let mut value = 0;
    for digit in digits {
        value = with_digit(base, value, *digit);
    }
    value
}

/// What is written before the digits of a number.
fn mark(base: Base) -> &'static [u8]
    ensures { result.now ≡ mark base }
{
    match base {
        Base::Two => b"2#",
        Base::Eight => b"8#",
        Base::Ten => b"",
        Base::Sixteen => b"16#",
    }
}

fn stands_to(base: Base, bytes: &[u8]) -> bool
    ensures { result ≡ stands_to base bytes.now }
{
    let mark = mark(base);
    bytes.starts_with(mark) && begins_with_digit(base, rest_after(bytes, mark.len()))
}

/// The base of the number at the front.
pub fn base_at(bytes: &[u8]) -> Base
    ensures { result ≡ base_at bytes.now }
{
    if stands_to(Base::Sixteen, bytes) {
        Base::Sixteen
    } else if stands_to(Base::Eight, bytes) {
        Base::Eight
    } else if stands_to(Base::Two, bytes) {
        Base::Two
    } else {
        Base::Ten
    }
}

fn digits_behind(before: usize, base: Base, digits: &[u8]) -> Number
    requires { before + length digits.now < 2 ^ 64 }
    ensures { result ≡ digits_behind before base digits.now }
{
    let size = digits_size(base, digits);
    Number {
        value: value_of(base, front_of(digits, size)),
        size: before + size,
    }
}

/// The longest number to a base at the front.
pub fn number_to(base: Base, bytes: &[u8]) -> Option<Number>
    ensures number { result ≡ number_to base bytes.now }
    ensures within { IfSome result (λ number. IsWithin number.size (length bytes.now)) }
{
    if stands_to(base, bytes) {
        let before = mark(base).len();
        Some(digits_behind(before, base, rest_after(bytes, before)))
    } else {
        None
    }
}

/// The longest number at the front.
pub fn number_at(bytes: &[u8]) -> Option<Number>
    ensures number { result ≡ number_at bytes.now }
    ensures within { IfSome result (λ number. IsWithin number.size (length bytes.now)) }
{
    number_to(base_at(bytes), bytes)
}
