//! Direct variables at the front of a text.
ghost use Rattle.std.specs.Prelude.{◌≡◌, ◌≤◌, ◌<◌, ◌+◌, ◌^◌, length, drop, IfSome, true};
ghost use Rattle.st_lexer.specs.Direct.{clamped_value, bit_variable, whole_variable, bit_of_byte, bit_at, whole_at, width_named, place_at, lettered_at, unlettered_at, begins_with_block, numbered_at, block_at, data_at, area_named, area_at, direct_at};
ghost use Rattle.st_lexer.specs.Literals.{number_to};
ghost use Rattle.st_lexer.specs.Pieces.{IsWithin};
ghost use Rattle.st_lexer.specs.declared.number.Base.TheVariants.{Ten};

use crate::number::{Base, Number, begins_with_digit, number_to};
use memory_areas::AreaName;
use s7_base::{Width, begins_with, rest_after};

/// A direct variable at the front of a text, as `%IX0.0`. A number above the greatest of 32 bits is
/// kept as that.
#[derive(Clone, Copy, Debug, PartialEq, Eq)]
pub struct Direct {
    pub area: AreaName,

    /// The number of its data block, if it is written.
    pub block: Option<u32>,

    pub width: Width,
    pub byte: u32,

    /// The number of the bit; 0 for a byte or more.
    pub bit: u32,

    /// How many bytes it takes.
    pub size: usize,
}

fn clamped_value(number: Number) -> u32
    ensures { result ≡ clamped_value number }
{
    u32::try_from(number.value).unwrap_or(u32::MAX)
}

/// A bit after the letters of an area: the number of a byte, a point and the number of a bit.
fn bit_at(area: AreaName, block: Option<u32>, before: usize, bytes: &[u8]) -> Option<Direct>
    requires { before + length bytes.now < 2 ^ 64 }
    ensures direct { result ≡ bit_at area block before bytes.now }
    ensures within { IfSome result (λ direct. IsWithin direct.size (before + length bytes.now)) }
{
    let byte = number_to(Base::Ten, bytes)?;
    let rest = rest_after(bytes, byte.size);
    if !begins_with(b'.', rest) {
        return None;
    }
    let bit = number_to(Base::Ten, rest_after(rest, 1))?;
    Some(Direct {
        area,
        block,
        width: Width::Bit,
        byte: clamped_value(byte),
        bit: clamped_value(bit),
        size: before + byte.size + 1 + bit.size,
    })
}

/// A place of a byte or more after the letters of an area: the number of its first byte.
fn whole_at(
    area: AreaName,
    block: Option<u32>,
    width: Width,
    before: usize,
    bytes: &[u8],
) -> Option<Direct>
    requires { before + length bytes.now < 2 ^ 64 }
    ensures direct { result ≡ whole_at area block width before bytes.now }
    ensures within { IfSome result (λ direct. IsWithin direct.size (before + length bytes.now)) }
{
    let byte = number_to(Base::Ten, bytes)?;
    Some(Direct {
        area,
        block,
        width,
        byte: clamped_value(byte),
        bit: 0,
        size: before + byte.size,
    })
}

fn width_named(letter: u8) -> Option<Width>
    ensures { result ≡ width_named letter }
{
    match letter {
        b'X' => Some(Width::Bit),
        b'B' => Some(Width::Byte),
        b'W' => Some(Width::Word),
        b'D' => Some(Width::Dword),
        _ => None,
    }
}

fn place_at(
    area: AreaName,
    block: Option<u32>,
    width: Option<Width>,
    before: usize,
    bytes: &[u8],
) -> Option<Direct>
    requires { before + length bytes.now < 2 ^ 64 }
    ensures direct { result ≡ place_at area block width before bytes.now }
    ensures within { IfSome result (λ direct. IsWithin direct.size (before + length bytes.now)) }
{
    match width {
        None => None,
        Some(Width::Bit) => bit_at(area, block, before, bytes),
        Some(width) => whole_at(area, block, width, before, bytes),
    }
}

/// The letter of a width, and the numbers of the place.
fn lettered_at(area: AreaName, block: Option<u32>, before: usize, bytes: &[u8]) -> Option<Direct>
    requires { before + length bytes.now < 2 ^ 64 }
    ensures direct { result ≡ lettered_at area block before bytes.now }
    ensures within { IfSome result (λ direct. IsWithin direct.size (before + length bytes.now)) }
{
    match bytes {
        [letter, rest @ ..] => place_at(
            area,
            block,
            width_named(letter.to_ascii_uppercase()),
            before + 1,
            rest,
        ),
        [] => None,
    }
}

/// A bit in I, Q, M or L without the letter X, which may be left out there.
fn unlettered_at(area: AreaName, bytes: &[u8]) -> Option<Direct>
    ensures direct { result ≡ unlettered_at area bytes.now }
    ensures within { IfSome result (λ direct. IsWithin direct.size (2 + length bytes.now)) }
{
    if begins_with_digit(Base::Ten, bytes) {
        bit_at(area, None, 2, bytes)
    } else {
        lettered_at(area, None, 2, bytes)
    }
}

/// Whether the text begins with `.DB`, in any case.
fn begins_with_block(bytes: &[u8]) -> bool
    ensures test { result ≡ begins_with_block bytes.now }
    ensures within { result ≡ true → 3 ≤ length bytes.now }
{
    match bytes {
        [point, d, b, ..] => *point == b'.'
            && d.to_ascii_uppercase() == b'D'
            && b.to_ascii_uppercase() == b'B',
        _ => false,
    }
}

/// The place after the number of a data block.
fn numbered_at(block: Number, rest: &[u8]) -> Option<Direct>
    requires { block.size + length rest.now < 2 ^ 63 }
    ensures direct { result ≡ numbered_at block rest.now }
    ensures within { IfSome result (λ direct. IsWithin direct.size (3 + block.size + length rest.now)) }
{
    if begins_with_block(rest) {
        lettered_at(
            AreaName::Db,
            Some(clamped_value(block)),
            block.size + 6,
            rest_after(rest, 3),
        )
    } else {
        None
    }
}

/// A place in the data block whose number is written, or in the one that the DB register names.
fn block_at(bytes: &[u8]) -> Option<Direct>
    ensures direct { result ≡ block_at (number_to Ten bytes.now) bytes.now }
    ensures within { IfSome result (λ direct. IsWithin direct.size (3 + length bytes.now)) }
{
    match number_to(Base::Ten, bytes) {
        Some(block) => numbered_at(block, rest_after(bytes, block.size)),
        None => lettered_at(AreaName::Db, None, 3, bytes),
    }
}

/// A place after `%D`.
fn data_at(bytes: &[u8]) -> Option<Direct>
    ensures direct { result ≡ data_at bytes.now }
    ensures within { IfSome result (λ direct. IsWithin direct.size (2 + length bytes.now)) }
{
    let [letter, rest @ ..] = bytes else {
        return None;
    };
    match letter.to_ascii_uppercase() {
        b'B' => block_at(rest),
        b'I' => lettered_at(AreaName::Di, None, 3, rest),
        _ => None,
    }
}

fn area_named(letter: u8) -> Option<AreaName>
    ensures { result ≡ area_named letter }
{
    match letter {
        b'I' => Some(AreaName::I),
        b'Q' => Some(AreaName::Q),
        b'M' => Some(AreaName::M),
        b'L' => Some(AreaName::L),
        _ => None,
    }
}

/// A place after the letter of its area.
fn area_at(letter: u8, bytes: &[u8]) -> Option<Direct>
    ensures direct { result ≡ area_at (area_named letter) letter bytes.now }
    ensures within { IfSome result (λ direct. IsWithin direct.size (2 + length bytes.now)) }
{
    match area_named(letter) {
        Some(area) => unlettered_at(area, bytes),
        None if letter == b'D' => data_at(bytes),
        None => None,
    }
}

/// The longest direct variable at the front of a text.
pub fn direct_at(bytes: &[u8]) -> Option<Direct>
    ensures direct { result ≡ direct_at bytes.now }
    ensures within { IfSome result (λ direct. IsWithin direct.size (length bytes.now)) }
{
    match bytes {
        [b'%', letter, rest @ ..] => area_at(letter.to_ascii_uppercase(), rest),
        _ => None,
    }
}
