//! Lists of bits, the lowest bit of a byte first.
ghost use Rattle.std.specs.Prelude.{◌≡◌, ◌++◌, ◌≤◌, ◌<◌, length, OnOk, IfOk};
ghost use Rattle.stl_rules.specs.Contents.{bit_of, byte_of, bytes_of, filled_to, first_bytes, low_bits, number_bits, times, value_bits, word_bits, zeros};
ghost use Rattle.symbol_layout.specs.Kept.{IsAlignment};
ghost use Rattle.stl_statement_grammar.specs.Constants.{value_in};
ghost use Rattle.stl_tree.specs.Accumulators.{signed_part};
ghost use Rattle.s7_base.specs.SignedNumbers.{pattern};
ghost use Rattle.s7_base.specs.declared.word.Width.TheVariants as wide;

use crate::extent::extent_of_width;
use s7_base::{NoMemory, Width, rest_after};
use std::alloc::Global;
use stl_tree::Constant;

/// Appends items this many times.
#[tactic(auto, using(crate::proofs::BitLists::times_laws))]
pub fn put_times<T: Copy>(list: &mut Vec<T>, count: u64, more: &[T]) -> Result<(), NoMemory>
    ensures { OnOk result (list.new.items ≡ list.old.items ++ times count more.now) }
{
    if more.is_empty() {
        return Ok(());
    }
    let mut left = count;
    while left > 0 {
        list.extend_from_slice(more)?;
        left -= 1;
    }
    Ok(())
}

#[tactic(auto, using(crate::proofs::BitLists::low_laws))]
fn put_low_bits(bits: &mut Vec<bool>, count: u32, number: u32) -> Result<(), NoMemory>
    ensures { OnOk result (bits.new.items ≡ bits.old.items ++ low_bits count number) }
{
    let mut left = count;
    let mut rest = number;
    while left > 0 {
        bits.push(rest % 2 == 1)?;
        rest /= 2;
        left -= 1;
    }
    Ok(())
}

#[tactic(auto, using(crate::proofs::BitLists::zero_laws))]
fn put_zeros(bits: &mut Vec<bool>, count: u64) -> Result<(), NoMemory>
    ensures { OnOk result (bits.new.items ≡ bits.old.items ++ zeros count) }
{
    let mut left = count;
    while left > 0 {
        bits.push(false)?;
        left -= 1;
    }
    Ok(())
}

/// Bits that are 0.
pub fn zeros(alloc: Global, count: u64) -> Result<Vec<bool>, NoMemory>
    ensures { IfOk result (λ bits. bits.items ≡ zeros count) }
{
    let mut bits = Vec::with_capacity(alloc, count as usize)?;
    put_zeros(&mut bits, count)?;
    Ok(bits)
}

/// Fills bits up to a multiple of an alignment.
pub fn fill(bits: &mut Vec<bool>, alignment: u64) -> Result<(), NoMemory>
    requires { IsAlignment alignment }
    ensures { OnOk result (bits.new.items ≡ filled_to alignment bits.old.items) }
{
    let length = bits.len() as u64;
    let full = length.checked_next_multiple_of(alignment).ok_or(NoMemory)?;
    put_zeros(bits, full - length)
}

fn put_word(bits: &mut Vec<bool>, number: u32) -> Result<(), NoMemory>
    ensures { OnOk result (bits.new.items ≡ bits.old.items ++ word_bits number) }
{
    put_low_bits(bits, 8, number / 256)?;
    put_low_bits(bits, 8, number)
}

fn put_number(bits: &mut Vec<bool>, width: Width, number: u32) -> Result<(), NoMemory>
    ensures { OnOk result (bits.new.items ≡ bits.old.items ++ number_bits width number) }
{
    match width {
        Width::Bit => put_low_bits(bits, 1, number),
        Width::Byte => put_low_bits(bits, 8, number),
        Width::Word => put_word(bits, number),
        Width::Dword => {
            put_word(bits, number / 65_536)?;
            put_word(bits, number)
        }
    }
}

fn word_number(value: u32) -> i16
    ensures { result ≡ signed_part wide.Word value }
{
    ((value & 0xffff) as u16).cast_signed()
}

fn sign_extension(value: u32) -> u32
    ensures { result ≡ pattern 32 (signed_part wide.Word value) }
{
    i32::from(word_number(value)).cast_unsigned()
}

/// The pattern of a constant in a width.
pub fn value_in(width: Width, constant: Constant) -> u32
    ensures { result ≡ value_in width constant }
{
    match width {
        Width::Dword if constant.signed => sign_extension(constant.value),
        _ => constant.value,
    }
}

/// The bits of the first of some values, or of 0 where there is none.
pub fn value_bits(alloc: Global, width: Width, values: &[Constant]) -> Result<Vec<bool>, NoMemory>
    ensures { IfOk result (λ bits. bits.items ≡ value_bits width values.now) }
{
    match values {
        [] => zeros(alloc, extent_of_width(width).bits),
        [constant, ..] => {
            let room = extent_of_width(width).bits as usize;
            let mut bits = Vec::with_capacity(alloc, room)?;
            put_number(&mut bits, width, value_in(width, *constant))?;
            Ok(bits)
        }
    }
}

fn bit_of(bits: &[bool], at: usize) -> u8
    ensures same { result ≡ bit_of bits.now at }
    ensures low { result ≤ 1 }
{
    match bits.get(at) {
        Some(bit) => u8::from(*bit),
        None => 0,
    }
}

/// The bit at a position, which exists, as 0 or 1.
fn bit_at(bits: &[bool], at: usize) -> u8
    requires { at < length bits.now }
    ensures same { result ≡ bit_of bits.now at }
    ensures low { result ≤ 1 }
{
    u8::from(bits[at])
}

/// The number of the first eight bits.
fn byte_of(bits: &[bool]) -> u8
    ensures { result ≡ byte_of bits.now }
{
    if bits.len() < 8 {
        return short_byte(bits);
    }
    bit_at(bits, 0)
        + 2 * bit_at(bits, 1)
        + 4 * bit_at(bits, 2)
        + 8 * bit_at(bits, 3)
        + 16 * bit_at(bits, 4)
        + 32 * bit_at(bits, 5)
        + 64 * bit_at(bits, 6)
        + 128 * bit_at(bits, 7)
}

/// The number of at most eight bits.
fn short_byte(bits: &[bool]) -> u8
    ensures { result ≡ byte_of bits.now }
{
    bit_of(bits, 0)
        + 2 * bit_of(bits, 1)
        + 4 * bit_of(bits, 2)
        + 8 * bit_of(bits, 3)
        + 16 * bit_of(bits, 4)
        + 32 * bit_of(bits, 5)
        + 64 * bit_of(bits, 6)
        + 128 * bit_of(bits, 7)
}

#[tactic(auto, using(crate::proofs::BitLists::byte_laws))]
fn first_bytes(alloc: Global, count: usize, bits: &[bool]) -> Result<Vec<u8>, NoMemory>
    ensures { IfOk result (λ bytes. bytes.items ≡ first_bytes count bits.now) }
{
    let mut bytes = Vec::with_capacity(alloc, count)?;
    let mut rest = bits;
    let mut left = count;
    while left > 0 {
        bytes.push(byte_of(rest))?;
        rest = rest_after(rest, 8);
        left -= 1;
    }
    Ok(bytes)
}

/// Bits as bytes, filled up to an even length.
#[tactic(auto, using(crate::proofs::BitLists::length_filled))]
pub fn bytes_of(alloc: Global, bits: Vec<bool>) -> Result<Vec<u8>, NoMemory>
    ensures { IfOk result (λ bytes. bytes.items ≡ bytes_of bits.items) }
{
    let mut full = bits;
    fill(&mut full, 16)?;
    first_bytes(alloc, full.len() / 8, full.as_slice())
}
