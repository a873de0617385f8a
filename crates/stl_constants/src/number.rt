//! Numbers, digit by digit.
ghost use Rattle.std.specs.Prelude.{◌≡◌, ◌≤◌, IfSome};
ghost use Rattle.stl_statement_grammar.specs.Numbers.{bits_of, has_bits_at_ends, hex_number, is_bit, with_hex_digit, with_next};
ghost use Rattle.stl_statement_grammar.specs.BlockNames.{is_numbered};
ghost use Rattle.stl_constants.specs.inner.Bits.{AreBits};

use crate::words::is_word_kind;
use digit_texts::{are_digits, hex_value};
use s7_base::{Token, front_of, is_same_word, rest_after};
use stl_statement_grammar::Bits;

/// Whether the token is this word and a number, without a blank.
pub fn is_numbered(token: &Token, word: &str) -> bool
    ensures { result ≡ is_numbered word.now token.now }
{
    let text = token.text.as_slice();
    is_word_kind(token)
        && is_same_word(front_of(text, word.len()), word)
        && are_digits(rest_after(text, word.len()))
}

/// A hexadecimal number with one digit more, where it is at most `most`.
fn with_hex_digit(most: u32, value: u32, digit: u8) -> Option<u32>
    requires { value ≤ most }
    ensures value { result ≡ with_hex_digit most value digit }
    ensures within { IfSome result (λ value. value ≤ most) }
{
    let more = u64::from(value) * 16 + u64::from(hex_value(digit)?);
    if more <= u64::from(most) {
        Some(more as u32)
    } else {
        None
    }
}

/// A hexadecimal number of at most `most`, with any number of leading zeros.
pub fn hex_number(most: u32, digits: &[u8]) -> Option<u32>
    ensures { result ≡ hex_number most digits.now }
{
    if digits.is_empty() {
        return None;
    }
    let mut value = 0;
    for digit in digits {
        value = with_hex_digit(most, value, *digit)?;
    }
    Some(value)
}

fn is_bit(b: u8) -> bool
    ensures { result ≡ is_bit b }
{
    matches!(b, b'0' | b'1')
}

/// Whether a text begins and ends with a binary digit.
fn has_bits_at_ends(text: &[u8]) -> bool
    ensures { result ≡ has_bits_at_ends text.now }
{
    match text {
        [first, rest @ ..] => is_bit(*first) && is_bit(text[rest.len()]),
        [] => false,
    }
}

/// One more binary digit, or `_`; at most 32 digits in all.
fn with_next(bits: Bits, b: u8) -> Option<Bits>
    requires { AreBits bits }
    ensures value { result ≡ with_next bits b }
    ensures within { IfSome result AreBits }
{
    if b == b'_' {
        Some(bits)
    } else if is_bit(b) && bits.count < 32 {
        Some(Bits {
            count: bits.count + 1,
            value: (u64::from(bits.value) * 2 + u64::from(b - b'0')) as u32,
        })
    } else {
        None
    }
}

/// At most 32 binary digits; one or more `_` may be between two of them.
pub fn bits_of(text: &[u8]) -> Option<Bits>
    ensures { result ≡ bits_of text.now }
{
    if !has_bits_at_ends(text) {
        return None;
    }
    let mut bits = Bits { count: 0, value: 0 };
    for b in text {
        bits = with_next(bits, *b)?;
    }
    Some(bits)
}
