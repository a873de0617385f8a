//! Numbers and bytes as an image writes them.
ghost use Rattle.std.specs.Prelude.{◌≡◌, option_map};
ghost use Rattle.digit_texts.specs.Digits.{capped_number};
ghost use Rattle.image_text.specs.Image.{is_number, image_number, byte_number, byte_of};

use digit_texts::{all_digits, hex_value, is_digit, number_value};

fn is_number(word: &[u8]) -> bool
    ensures { result ≡ is_number word.now }
{
    match word {
        [] => false,
        [digit] => is_digit(*digit),
        [first, ..] => *first != b'0' && all_digits(word),
    }
}

/// A number without leading zeros; one above 4,294,967,295 is kept as that number.
pub fn image_number(word: &[u8]) -> Option<u32>
    ensures { result ≡ option_map capped_number (image_number word.now) }
{
    if is_number(word) {
        Some(number_value(word))
    } else {
        None
    }
}

/// The number before a colon.
pub fn byte_number(word: &[u8]) -> Option<u32>
    ensures { result ≡ option_map capped_number (byte_number word.now) }
{
    match word {
        [number @ .., b':'] => image_number(number),
        _ => None,
    }
}

/// The byte that a field writes with exactly two hexadecimal digits.
pub fn byte_of(field: &[u8]) -> Option<u8>
    ensures { result ≡ byte_of field.now }
{
    match field {
        [high, low] => {
            let high = hex_value(*high)?;
            let low = hex_value(*low)?;
            Some(16 * high + low)
        }
        _ => None,
    }
}
