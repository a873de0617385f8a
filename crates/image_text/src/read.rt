//! Reads an image.
ghost use Rattle.std.specs.Prelude.{◌≡◌, ◌∷◌, [], ◌+◌, ◌<◌, ◌^◌, IfOk, IsSome, OnOk, Some, false, length, true};
ghost use Rattle.memory_areas.specs.Access.{is_closed};
ghost use Rattle.memory_areas.specs.Areas.{AreBlocks, IsMemoryOf, bytes_of, fresh};
ghost use Rattle.image_text.specs.Image.{has_room, image_of, is_blank, line_on, line_said, says_nothing, area_line_said, values_of, with_bytes_from};
ghost use Rattle.image_text.specs.inner.Fields.{IsNamed, IsUsable, LineDoes, MemoryStays, pieces_left, values_left, view};
ghost use Rattle.image_text.specs.Reading.{Reads};

use crate::area_line::{AreaLine, area_line_of, count_bytes};
use crate::number::byte_of;
use crate::pieces::{cut_line, next_piece, rest_after, strip_return};
use crate::refusal::ImageRefusal;
use memory_areas::{Area, DataBlock, Memory, Place};
use s7_base::{Line, NoMemory};
use std::alloc::Global;

fn says_nothing(line: &[u8]) -> bool
    ensures { result ≡ says_nothing line.now }
{
    match line {
        [] => true,
        [first, ..] => *first == b'#',
    }
}

/// Whether the area exists, and has this many bytes from a byte on.
fn has_room(memory: &Memory, area: Area, byte: u32, count: usize) -> bool
    requires { IsNamed area }
    ensures { result ≡ has_room (bytes_of area memory.now) byte count }
{
    match memory.bytes(area) {
        Some(bytes) => count <= bytes.len() && byte as usize <= bytes.len() - count,
        None => false,
    }
}

/// The byte of the first field, and what comes after it.
fn next_value(left: &[u8]) -> (u8, &[u8])
    requires some { 0 < length left.now }
    requires bytes { IsSome (values_of (pieces_left is_blank left.now)) }
    ensures first { values_left left.now ≡ result.0 ∷ values_left result.1.now }
    ensures bytes { IsSome (values_of (pieces_left is_blank result.1.now)) }
    ensures shorter { length result.1.now < length left.now }
{
    let (field, behind) = next_piece(left);
    let value = byte_of(field).unwrap();
    (value, behind)
}

fn put_byte(memory: &mut Memory, area: Area, at: u32, value: u8)
    requires named { IsNamed area }
    requires is_open { is_closed (Some area) ≡ false }
    requires room { has_room (bytes_of area memory.old) at 1 ≡ true }
    ensures done { memory.new ≡ with_bytes_from area at (value ∷ []) memory.old }
    ensures stays { MemoryStays memory.old memory.new }
{
    let place = Place {
        area,
        byte: at,
        bit: 0,
    };
    memory.write_byte(place, value).unwrap();
}

/// Writes the byte of each field.
fn put_fields(memory: &mut Memory, area: Area, byte: u32, fields: &[u8])
    requires named { IsNamed area }
    requires is_open { is_closed (Some area) ≡ false }
    requires bytes { IsSome (values_of (pieces_left is_blank fields.now)) }
    requires room { has_room (bytes_of area memory.old) byte (length (values_left fields.now)) ≡ true }
    requires small { byte + length (values_left fields.now) < 2 ^ 32 }
    ensures done { memory.new ≡ with_bytes_from area byte (values_left fields.now) memory.old }
    ensures stays { MemoryStays memory.old memory.new }
{
    let mut left = fields;
    let mut at = byte;
    while !left.is_empty() {
        let (value, behind) = next_value(left);
        put_byte(memory, area, at, value);
        at += 1;
        left = behind;
    }
}

/// Does what a line of the right form says.
fn apply_area_line(
    memory: &mut Memory,
    line: Line,
    area_line: AreaLine<'_>,
) -> Result<(), ImageRefusal>
    requires usable { IsUsable memory.old }
    requires named { IsNamed area_line.area }
    ensures done { LineDoes (line_on line (area_line_said (Some (view area_line.entry))) memory.old) result memory.new }
    ensures usable { OnOk result (IsUsable memory.new) }
    ensures stays { OnOk result (MemoryStays memory.old memory.new) }
{
    let Some(count) = count_bytes(area_line.fields) else {
        return Err(ImageRefusal::BadByte(line));
    };
    if !has_room(memory, area_line.area, area_line.byte, count) {
        return Err(ImageRefusal::OutsideArea(line));
    }
    put_fields(memory, area_line.area, area_line.byte, area_line.fields);
    Ok(())
}

/// Does what a line says.
fn apply_line(memory: &mut Memory, line: Line, text: &[u8]) -> Result<(), ImageRefusal>
    requires { IsUsable memory.old }
    ensures done { LineDoes (line_on line (line_said text.now) memory.old) result memory.new }
    ensures usable { OnOk result (IsUsable memory.new) }
    ensures stays { OnOk result (MemoryStays memory.old memory.new) }
{
    if says_nothing(text) {
        return Ok(());
    }
    let Some(area_line) = area_line_of(text) else {
        return Err(ImageRefusal::BadLine(line));
    };
    apply_area_line(memory, line, area_line)
}

fn new_memory(alloc: Global, blocks: &[DataBlock]) -> Result<Memory, NoMemory>
    requires { AreBlocks blocks.now }
    ensures fresh { IfOk result (λ memory. memory ≡ fresh blocks.now) }
    ensures usable { IfOk result IsUsable }
    ensures memory { IfOk result (λ memory. IsMemoryOf blocks.now memory.areas) }
{
    let memory = Memory::new(alloc, blocks)?;
    Ok(memory)
}

/// The memory that an image gives to a program with these data blocks. What no line names is zero, or
/// a data block's byte.
pub fn read_image(alloc: Global, bytes: &[u8], blocks: &[DataBlock]) -> Result<Memory, ImageRefusal>
    requires { AreBlocks blocks.now }
    ensures reads { Reads result (image_of bytes.now blocks.now) }
    ensures memory { IfOk result (λ memory. IsMemoryOf blocks.now memory.areas) }
{
    let mut memory = new_memory(alloc, blocks)?;
    let mut rest = bytes;
    let mut line = 1;
    loop {
        let (text, behind) = cut_line(rest);
        apply_line(&mut memory, Line(line), strip_return(text))?;
        if behind.is_empty() {
            return Ok(memory);
        }
        rest = rest_after(behind, 1);
        line = line.saturating_add(1);
    }
}
