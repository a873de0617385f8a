//! Decimal and hexadecimal digits.
ghost use Rattle.std.specs.Prelude.{◌≡◌, ◌<◌, IfSome};
ghost use Rattle.std.specs.List.{list_all};
ghost use Rattle.digit_texts.specs.Digits.{are_digits, digits_size, hex_digit, hex_value, is_digit};

/// Whether a byte is a decimal digit.
pub fn is_digit(b: u8) -> bool
    ensures { result ≡ is_digit b }
{
    b.is_ascii_digit()
}

/// Whether a text has nothing but digits; it may be empty.
pub fn all_digits(word: &[u8]) -> bool
    ensures { result ≡ list_all is_digit word.now }
{
    word.iter().all(|b| is_digit(*b))
}

/// Whether a text is one or more digits and nothing else.
pub fn are_digits(word: &[u8]) -> bool
    ensures { result ≡ are_digits word.now }
{
    match word {
        [] => false,
        _ => all_digits(word),
    }
}

/// How many digits a text begins with.
pub fn digits_size(text: &[u8]) -> usize
    ensures { result ≡ digits_size text.now }
{
    text.iter().take_while(|b| is_digit(**b)).count()
}

/// The value of a hexadecimal digit, 0 to 15; the digit may be a small letter or a capital.
pub fn hex_value(digit: u8) -> Option<u8>
    ensures value { result ≡ hex_value digit }
    ensures within { IfSome result (λ value. value < 16) }
{
    match digit {
        b'0'..=b'9' => Some(digit - b'0'),
        b'A'..=b'F' => Some(digit - b'A' + 10),
        b'a'..=b'f' => Some(digit - b'a' + 10),
        _ => None,
    }
}

/// The hexadecimal digit of a value, a capital.
pub fn hex_digit(n: u8) -> u8
    requires { n < 16 }
    ensures { result ≡ hex_digit n }
{
    if n < 10 { b'0' + n } else { b'A' + (n - 10) }
}
