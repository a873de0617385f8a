//! Numbers written into bytes, the highest byte first.
ghost use Rattle.std.specs.Prelude.{◌≡◌, ◌+◌, ◌*◌, ◌/◌, ◌^◌, ◌<◌, ◌≤◌, if◌then◌else◌, length};
ghost use Rattle.data_contents.specs.inner.Inside.{Lies};
ghost use Rattle.memory_areas.specs.Areas.{byte_with, bytes_of_dword, bytes_of_word, overwrite};
ghost use Rattle.stl_rules.specs.DataBlocks.{with_number};
ghost use Rattle.stl_tree.specs.Accumulators.{part};

use s7_base::{Width, high_word, low_byte, low_word};
use stl_rules::Component;

/// The value of a bit in its byte: 1, 2, 4 to 128.
fn weight_of(bit: u8) -> u32
    requires { bit < 8 }
    ensures same { result ≡ 2 ^ bit }
    ensures few { result ≤ 128 }
{
    1 << bit
}

/// The bits of a byte from the bit of this weight upwards.
fn from_bit(byte: u32, weight: u32) -> u32
    requires { 1 ≤ weight }
    ensures same { result ≡ byte / weight * weight }
    ensures few { result ≤ byte }
{
    byte - byte % weight
}

/// The weight of a bit that is set, else 0.
fn worth_of(weight: u32, value: bool) -> u32
    ensures same { result ≡ (if value then weight else 0) }
    ensures few { result ≤ weight }
{
    if value { weight } else { 0 }
}

/// A byte with another bit.
fn byte_with(byte: u8, bit: u8, value: bool) -> u8
    requires { bit < 8 }
    ensures { result ≡ byte_with byte bit value }
{
    let weight = weight_of(bit);
    let all = u32::from(byte);
    (from_bit(all, 2 * weight) + worth_of(weight, value) + all % weight) as u8
}

fn bytes_of_word(word: u16) -> [u8; 2]
    ensures { result ≡ bytes_of_word word }
{
    [(word >> 8) as u8, (word & 0xff) as u8]
}

fn bytes_of_dword(word: u32) -> [u8; 4]
    ensures { result ≡ bytes_of_dword word }
{
    let [a, b] = bytes_of_word(high_word(word));
    let [c, d] = bytes_of_word(low_word(word));
    [a, b, c, d]
}

/// Replaces the bytes from an index on by others.
fn replace(bytes: &mut [u8], at: usize, new: &[u8])
    requires { at + length new.now ≤ length bytes.old }
    ensures { bytes.new ≡ overwrite bytes.old at new.now }
{
    bytes[at..at + new.len()].copy_from_slice(new);
}

/// Puts the lowest bits of a number, as many as a width has, at the place of a component.
pub fn put_number(bytes: &mut [u8], at: Component, width: Width, number: u32)
    requires { Lies (length bytes.old) at width }
    ensures { bytes.new ≡ with_number bytes.old at width (part width number) }
{
    let start = at.byte as usize;
    match width {
        Width::Bit => {
            let byte = byte_with(bytes[start], at.bit, number % 2 == 1);
            replace(bytes, start, &[byte]);
        }
        Width::Byte => replace(bytes, start, &[low_byte(number)]),
        Width::Word => replace(bytes, start, &bytes_of_word(low_word(number))),
        Width::Dword => replace(bytes, start, &bytes_of_dword(number)),
    }
}
