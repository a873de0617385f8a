//! Reads pointer constants, and operands that are found by a pointer.
ghost use Rattle.std.specs.Prelude.{◌≡◌, ◌&&◌, ◌==◌, if◌then◌else◌, Some, None, codes};
ghost use Rattle.memory_areas.specs.Access.{bytes_wide};
ghost use Rattle.stl_statement_grammar.specs.Constants.{begins_glued};
ghost use Rattle.stl_statement_grammar.specs.Places.{place_at};
ghost use Rattle.stl_statement_grammar.specs.Pointers.{with_closing, crossing_at, crossing_by, indirect_at, indirect_by, is_held, is_in_reach, memory_at, offset_at, offset_behind, offset_of, pointer_at, pointer_behind, pointer_to, pointer_with, register_at, register_named, value_of, width_named};
ghost use Rattle.stl_statement_grammar.specs.Readers.{IsWithin, read_as};
ghost use Rattle.stl_statement_grammar.specs.Words.{is_joined, is_word};
ghost use Rattle.stl_tree.specs.declared.program.Ar.{Ar};
ghost use Rattle.stl_tree.specs.declared.raw.RawOperand.{RawOperand};
ghost use Rattle.stl_tree.specs.declared.raw.RawOperand.TheVariants as operand;
ghost use Rattle.stl_tree.specs.declared.raw.RawPlace.{RawPlace};
ghost use Rattle.stl_tree.specs.declared.raw.RawPointer.{RawPointer};
ghost use Rattle.stl_places.specs.inner.Rows.{place_word_of};

use crate::path::number_word;
use crate::place::{PlaceWord, bit_at, further, place_at, word_in};
use memory_areas::AreaName;
use s7_base::{Token, Width, rest_after};
use stl_constants::{begins_glued, is_joined, is_sign, is_word};
use stl_statement_grammar::Read;
use stl_tree::{Ar, RawOperand, RawPlace, RawPointer, may_hold_pointers};

/// Whether byte and bit are ones that a pointer has: a byte up to 65,535, a bit up to 7.
fn is_in_reach(pointer: RawPointer) -> bool
    ensures { result ≡ is_in_reach pointer }
{
    pointer.byte <= 65_535 && pointer.bit <= 7
}

/// The pattern of an offset: byte and bit in their places, where a pointer has them.
pub fn offset_value(pointer: RawPointer) -> Option<u32>
    ensures { result ≡ (if is_in_reach pointer then Some (offset_of pointer) else None) }
{
    if is_in_reach(pointer) {
        Some(pointer.byte * 8 + pointer.bit)
    } else {
        None
    }
}

/// The pattern of a pointer: area code, byte and bit in their places, where a pointer has them.
pub fn pointer_value(pointer: RawPointer) -> Option<u32>
    ensures { result ≡ (if is_in_reach pointer then Some (value_of pointer) else None) }
{
    if is_in_reach(pointer) {
        Some(u32::from(pointer.code) * 16_777_216 + (pointer.byte * 8 + pointer.bit))
    } else {
        None
    }
}

/// An offset after `P#`: a byte, a point and a bit, without an area.
fn offset_behind(tokens: &[Token]) -> Read<RawPointer>
    ensures value { result ≡ offset_behind tokens.now }
    ensures within { IsWithin 3 result }
{
    match tokens {
        [byte, rest @ ..] => match (number_word(byte), bit_at(rest)) {
            (Some(byte), Read::Fits(bit, size)) => {
                Read::Fits(RawPointer { code: 0, byte, bit }, size + 1)
            }
            _ => Read::No,
        },
        [] => Read::No,
    }
}

/// The pointer to a bit without a data block before it.
fn pointer_to(place: RawPlace) -> Option<RawPointer>
    ensures { result ≡ pointer_to place }
{
    match (place.block, place.width) {
        (None, Width::Bit) => Some(RawPointer {
            code: place.area.code(),
            byte: place.byte,
            bit: place.bit,
        }),
        _ => None,
    }
}

fn area_pointer_at(tokens: &[Token]) -> Read<RawPointer>
    ensures value { result ≡ pointer_with (place_at tokens.now) }
    ensures within { IsWithin 7 result }
{
    match place_at(tokens) {
        Read::Fits(place, size) => match pointer_to(place) {
            Some(pointer) => Read::Fits(pointer, size),
            None => Read::No,
        },
        Read::LeftOut(_) | Read::No => Read::No,
    }
}

/// A pointer after `P#`: a bit of an area, or an offset.
fn pointer_behind(tokens: &[Token]) -> Read<RawPointer>
    ensures value { result ≡ pointer_behind tokens.now }
    ensures within { IsWithin 7 result }
{
    match area_pointer_at(tokens) {
        Read::No => offset_behind(tokens),
        read => read,
    }
}

/// Whether the tokens are `P#` and more tokens, with no blank before these.
fn is_behind_hash(word: &Token, hash: &Token, rest: &[Token]) -> bool
    ensures { result ≡ (is_word (codes "P") word.now && is_joined (codes "#") hash.now && begins_glued rest.now) }
{
    is_word(word, "P") && is_joined(hash, "#") && begins_glued(rest)
}

/// A pointer constant: `P#M 10.3` or `P#10.3`.
pub fn pointer_at(tokens: &[Token]) -> Read<RawPointer>
    ensures { result ≡ pointer_at tokens.now }
{
    match tokens {
        [word, hash, rest @ ..] if is_behind_hash(word, hash, rest) => {
            further(2, pointer_behind(rest))
        }
        _ => Read::No,
    }
}

/// An offset: `P#10.3`.
pub fn offset_at(tokens: &[Token]) -> Read<RawPointer>
    ensures value { result ≡ offset_at tokens.now }
    ensures within { IsWithin 5 result }
{
    match tokens {
        [word, hash, rest @ ..] if is_behind_hash(word, hash, rest) => {
            further(2, offset_behind(rest))
        }
        _ => Read::No,
    }
}

fn is_as_wide(width: Width, other: Width) -> bool
    ensures { result ≡ (bytes_wide width == bytes_wide other) }
{
    match (width, other) {
        (Width::Bit | Width::Byte, Width::Bit | Width::Byte)
        | (Width::Word, Width::Word)
        | (Width::Dword, Width::Dword) => true,
        _ => false,
    }
}

/// Whether a pointer, or the number of a data block, of this width may be stored at the place.
fn is_held(width: Width, place: RawPlace) -> bool
    ensures { result ≡ is_held width place }
{
    place.block.is_none() && may_hold_pointers(place.area) && is_as_wide(place.width, width)
}

/// The place of a pointer, or of the number of a data block, and the end of its bracket: `MD 4]`.
pub fn memory_at(width: Width, tokens: &[Token]) -> Read<RawPlace>
    ensures value { (make : RawPlace → RawOperand) → read_as make result ≡ memory_at make width tokens.now }
    ensures within { IsWithin 8 result }
{
    match place_at(tokens) {
        Read::Fits(place, size) if is_held(width, place) => match rest_after(tokens, size) {
            [close, ..] if is_sign(close, "]") => Read::Fits(place, size + 1),
            _ => Read::No,
        },
        _ => Read::No,
    }
}

fn register_named(word: &Token) -> Option<Ar>
    ensures { result ≡ register_named word.now }
{
    if is_word(word, "AR1") {
        Some(Ar::One)
    } else if is_word(word, "AR2") {
        Some(Ar::Two)
    } else {
        None
    }
}

/// An offset and the end of its bracket.
fn closed_offset_at(tokens: &[Token]) -> Read<RawPointer>
    ensures value { (make : RawPointer → RawOperand) → read_as make result ≡ with_closing tokens.now (read_as make (offset_at tokens.now)) }
    ensures within { IsWithin 6 result }
{
    match offset_at(tokens) {
        Read::Fits(pointer, size) => match rest_after(tokens, size) {
            [close, ..] if is_sign(close, "]") => Read::Fits(pointer, size + 1),
            _ => Read::No,
        },
        Read::LeftOut(kind) => Read::LeftOut(kind),
        Read::No => Read::No,
    }
}

/// A register, an offset and the end of their bracket: `AR1,P#0.6]`.
fn register_at(tokens: &[Token]) -> Read<(Ar, RawPointer)>
    ensures value { (make : Ar → RawPointer → RawOperand) → read_as (λ found. make found.0 found.1) result ≡ register_at make tokens.now }
    ensures within { IsWithin 8 result }
{
    match tokens {
        [word, comma, rest @ ..] if is_sign(comma, ",") => match register_named(word) {
            Some(register) => match closed_offset_at(rest) {
                Read::Fits(offset, size) => Read::Fits((register, offset), size + 2),
                Read::LeftOut(kind) => Read::LeftOut(kind),
                Read::No => Read::No,
            },
            None => Read::No,
        },
        _ => Read::No,
    }
}

/// The pointer in a bracket: its place, or a register and an offset.
fn indirect_by(word: PlaceWord, tokens: &[Token]) -> Read<RawOperand>
    ensures value { result ≡ indirect_by (Some (place_word_of word)) tokens.now }
    ensures within { IsWithin 8 result }
{
    match memory_at(Width::Dword, tokens) {
        Read::Fits(place, size) => {
            Read::Fits(RawOperand::ByMemory(word.area, word.width, place), size)
        }
        Read::LeftOut(kind) => Read::LeftOut(kind),
        Read::No => by_register(word, tokens),
    }
}

fn by_register(word: PlaceWord, tokens: &[Token]) -> Read<RawOperand>
    ensures value { result ≡ register_at (operand.ByRegister word.area word.width) tokens.now }
    ensures within { IsWithin 8 result }
{
    match register_at(tokens) {
        Read::Fits((register, offset), size) => Read::Fits(
            RawOperand::ByRegister(word.area, word.width, register, offset),
            size,
        ),
        Read::LeftOut(kind) => Read::LeftOut(kind),
        Read::No => Read::No,
    }
}

/// An operand that names its area: `MW [MD 4]` or `MW [AR1,P#2.0]`.
pub fn indirect_at(tokens: &[Token]) -> Read<RawOperand>
    ensures { result ≡ indirect_at tokens.now }
{
    match tokens {
        [word, before, rest @ ..] if is_sign(before, "[") => match word_in(word) {
            Some(word) => further(2, indirect_by(word, rest)),
            None => Read::No,
        },
        _ => Read::No,
    }
}

/// The width of a word before a pointer that has its area.
fn width_named(word: &Token) -> Option<Width>
    ensures { result ≡ width_named word.now }
{
    if is_word(word, "B") {
        Some(Width::Byte)
    } else if is_word(word, "W") {
        Some(Width::Word)
    } else if is_word(word, "D") {
        Some(Width::Dword)
    } else {
        None
    }
}

fn crossing(width: Width, tokens: &[Token]) -> Read<RawOperand>
    ensures value { result ≡ register_at (operand.Crossing width) tokens.now }
    ensures within { IsWithin 8 result }
{
    match register_at(tokens) {
        Read::Fits((register, offset), size) => {
            Read::Fits(RawOperand::Crossing(width, register, offset), size)
        }
        Read::LeftOut(kind) => Read::LeftOut(kind),
        Read::No => Read::No,
    }
}

/// An operand after the word of its width: a bracket with a register and an offset.
fn wide_crossing(width: Option<Width>, tokens: &[Token]) -> Read<RawOperand>
    ensures { result ≡ crossing_by width tokens.now }
{
    match (width, tokens) {
        (Some(width), [before, rest @ ..]) if is_sign(before, "[") => {
            further(2, crossing(width, rest))
        }
        _ => Read::No,
    }
}

/// An operand whose area is in its pointer: a bit, or with its width before the bracket.
pub fn crossing_at(tokens: &[Token]) -> Read<RawOperand>
    ensures { result ≡ crossing_at tokens.now }
{
    match tokens {
        [first, rest @ ..] if is_sign(first, "[") => further(1, crossing(Width::Bit, rest)),
        [first, rest @ ..] => wide_crossing(width_named(first), rest),
        [] => Read::No,
    }
}
