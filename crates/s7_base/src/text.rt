//! Parts of texts and lists.
ghost use Rattle.std.specs.Prelude.{◌≡◌, take, drop};
ghost use Rattle.s7_base.specs.Tokens.{is_word_byte, is_same_word, begins_with};

/// The rest of a list after its first items; empty if there are fewer.
pub fn rest_after<T>(list: &[T], size: usize) -> &[T]
    ensures { result.now ≡ drop size list.now }
{
    list.get(size..).unwrap_or(&[])
}

/// The first items of a list; all of it if there are fewer.
pub fn front_of<T>(list: &[T], size: usize) -> &[T]
    ensures { result.now ≡ take size list.now }
{
    list.get(..size).unwrap_or(list)
}

/// Whether the bytes begin with this one.
pub fn begins_with(b: u8, bytes: &[u8]) -> bool
    ensures { result ≡ begins_with b bytes.now }
{
    match bytes {
        [first, ..] => *first == b,
        [] => false,
    }
}

/// Whether the two are the same word, in any case.
pub fn is_same_word(word: &[u8], entry: &str) -> bool
    ensures { result ≡ is_same_word word.now entry.now }
{
    word.eq_ignore_ascii_case(entry.as_bytes())
}

/// Whether a byte is a letter, a digit or `_`.
pub fn is_word_byte(b: u8) -> bool
    ensures { result ≡ is_word_byte b }
{
    matches!(b, b'0'..=b'9' | b'A'..=b'Z' | b'a'..=b'z' | b'_')
}
