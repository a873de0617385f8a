//! The widths of operands, and the parts of a 32-bit register.
ghost use Rattle.std.specs.Prelude.{◌≡◌, ◌+◌, ◌*◌, ◌/◌, ◌%◌, ◌^◌};

/// The width of an operand.
#[derive(Clone, Copy, Debug, PartialEq, Eq)]
pub enum Width {
    Bit,
    Byte,
    Word,
    Dword,
}

/// The lowest 8 bits.
pub fn low_byte(w: u32) -> u8
    ensures { result ≡ w % 2 ^ 8 }
{
    (w & 0xff) as u8
}

/// The lowest 16 bits.
pub fn low_word(w: u32) -> u16
    ensures { result ≡ w % 2 ^ 16 }
{
    (w & 0xffff) as u16
}

/// The highest 16 bits.
pub fn high_word(w: u32) -> u16
    ensures { result ≡ w / 2 ^ 16 }
{
    (w >> 16) as u16
}

/// The word with other lowest 8 bits.
pub fn put_low_byte(w: u32, b: u8) -> u32
    ensures { result ≡ w / 2 ^ 8 * 2 ^ 8 + b }
{
    w / 256 * 256 + u32::from(b)
}

/// The word with other lowest 16 bits.
pub fn put_low_word(w: u32, v: u16) -> u32
    ensures { result ≡ w / 2 ^ 16 * 2 ^ 16 + v }
{
    w / 65536 * 65536 + u32::from(v)
}
