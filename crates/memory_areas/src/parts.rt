//! Numbers in bytes, and the tests that look at a place alone.
ghost use Rattle.std.specs.Prelude.{◌≡◌, ◌+◌, ◌<◌, ◌≤◌, Some, length};
ghost use Rattle.memory_areas.specs.Access.{bytes_wide, is_closed, is_unaligned};
ghost use Rattle.memory_areas.specs.Areas.{byte_at, word_at, dword_at, bit_of_byte, byte_with, bytes_of_word, bytes_of_dword, overwrite};

use crate::place::Area;
use s7_base::Width;

/// How many bytes a width reaches.
#[inline(always)]
pub fn bytes_wide(width: Width) -> usize
    ensures value { result ≡ bytes_wide width }
    ensures few { result ≤ 4 }
{
    match width {
        Width::Bit | Width::Byte => 1,
        Width::Word => 2,
        Width::Dword => 4,
    }
}

/// Whether an area is that of a data block where none is open.
#[inline(always)]
pub fn is_closed(area: Area) -> bool
    ensures { result ≡ is_closed (Some area) }
{
    matches!(area, Area::Db(0))
}

/// Whether a width does not have this bit number.
#[inline(always)]
pub fn is_unaligned(width: Width, bit: u8) -> bool
    ensures { result ≡ is_unaligned width bit }
{
    match width {
        Width::Bit => bit > 7,
        Width::Byte | Width::Word | Width::Dword => bit > 0,
    }
}

/// The word that begins at a byte, the high byte first.
pub fn word_at(bytes: &[u8], at: usize) -> u16
    requires { at + 2 ≤ length bytes.now }
    ensures { result ≡ word_at bytes.now at }
{
    u16::from(bytes[at]) * 256 + u16::from(bytes[at + 1])
}

/// The double word that begins at a byte, the highest byte first.
pub fn dword_at(bytes: &[u8], at: usize) -> u32
    requires { at + 4 ≤ length bytes.now }
    ensures { result ≡ dword_at bytes.now at }
{
    u32::from(word_at(bytes, at)) * 65536 + u32::from(word_at(bytes, at + 2))
}

/// Bit `x` of a byte, counted from the lowest.
pub fn bit_of_byte(byte: u8, x: u8) -> bool
    requires { x < 8 }
    ensures { result ≡ bit_of_byte byte x }
{
    (byte >> x) % 2 == 1
}

/// The byte with another bit `x`.
pub fn byte_with(byte: u8, x: u8, value: bool) -> u8
    requires { x < 8 }
    ensures { result ≡ byte_with byte x value }
{
    let one = 1 << x;
    if bit_of_byte(byte, x) == value {
        byte
    } else if value {
        byte + one
    } else {
        byte - one
    }
}

/// The two bytes of a word, the high one first.
pub fn bytes_of_word(word: u16) -> [u8; 2]
    ensures { result ≡ bytes_of_word word }
{
    [(word >> 8) as u8, (word & 0xff) as u8]
}

/// The four bytes of a double word, the highest first.
pub fn bytes_of_dword(word: u32) -> [u8; 4]
    ensures { result ≡ bytes_of_dword word }
{
    [
        (word >> 24) as u8,
        (word >> 16 & 0xff) as u8,
        (word >> 8 & 0xff) as u8,
        (word & 0xff) as u8,
    ]
}

/// Replaces the bytes from `at` on by others.
#[inline(always)]
pub fn replace(bytes: &mut [u8], at: usize, new: &[u8])
    requires { at + length new.now ≤ length bytes.old }
    ensures { bytes.new ≡ overwrite bytes.old at new.now }
{
    bytes[at..at + new.len()].copy_from_slice(new);
}
