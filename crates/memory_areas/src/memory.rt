//! The memory itself: reads and writes by place. Each step of a run makes some, so they are inlined into
//! their callers, where the width is known and no place is copied.
ghost use Rattle.std.specs.Prelude.{ℕ, ◌≡◌, ◌+◌, ◌^◌, ◌<◌, ◌≤◌, All, [], length, get_or, slice_get, slice_set, Some, None, Ok, Err, is_some, MatchOption, MatchResult, IfOk, OnOk, map, replicate};
ghost use Rattle.memory_areas.specs.Access.{aim_of_place, bytes_wide, bytes_there, fault_of, unless, bytes_for_access, write_bytes, read_bit, read_byte, read_word, read_dword, write_bit, write_byte, write_word, write_dword};
ghost use Rattle.memory_areas.specs.Areas.{AreBlocks, Ascend, IsMemoryOf, block_of, bytes_in, bytes_of, with_zero_activation, fresh, no_locals, numbers_of, overwrite, with_areas};
ghost use Rattle.memory_areas.specs.Memory.{IsActivation, IsMissing, HasBytes, HasActivations, Writes};
ghost use Rattle.memory_areas.specs.inner.Stored.{HasRoom, data_blocks_of, position_of};

use crate::data_block::{DataBlock, copy_of_bytes};
use crate::parts::{
    bit_of_byte, byte_with, bytes_of_dword, bytes_of_word, bytes_wide, dword_at, is_closed,
    is_unaligned, replace, word_at,
};
use crate::place::{Area, Place};
use crate::sizes::{ACTIVATIONS, INPUT_BYTES, LOCAL_BYTES, MARKER_BYTES, OUTPUT_BYTES};
use s7_base::{Fault, NoMemory, Width};
use std::alloc::Global;
use std::marker::Model;

/// The memory of a controller: the process images, the bit memory, the data blocks, and the local data
/// and the constant actuals of eight activations.
#[derive(Debug, Drop)]
pub struct Memory {
    inputs: Vec<u8>,
    outputs: Vec<u8>,
    markers: Vec<u8>,

    /// The numbers of the data blocks, ascending.
    numbers: Vec<u16>,

    /// The bytes of the data blocks, in the order of their numbers.
    blocks: Vec<Vec<u8>>,
    locals: [[u8; LOCAL_BYTES]; ACTIVATIONS],
    cells: [[u8; LOCAL_BYTES]; ACTIVATIONS],
}

impl Model for Memory {
    ghost use Rattle.std.specs.Prelude.{◌≡◌, length, map};
    ghost use Rattle.memory_areas.specs.Areas.{Ascend, Contents};
    ghost use Rattle.memory_areas.specs.inner.Stored.{data_blocks_of};

    ghost Value = { Contents };

    ghost view = { λ m. record {
      areas = record {
        inputs = m.inputs.items;
        outputs = m.outputs.items;
        markers = m.markers.items;
        blocks = data_blocks_of m.numbers.items (map (λ b. b.items) m.blocks.items);
      };
      locals = m.locals;
      cells = m.cells;
    } };

    ghost invariant = { λ m. (length m.blocks.items ≡ length m.numbers.items) × Ascend 1 m.numbers.items };
}

/// Some bytes, all zero.
fn zeros(alloc: Global, count: usize) -> Result<Vec<u8>, NoMemory>
    ensures { IfOk result (λ bytes. bytes.items ≡ replicate count 0) }
{
    Ok(vec![in alloc; 0; count]?)
}

/// Local data, or constant actuals, of eight activations, all zero.
fn no_locals() -> [[u8; LOCAL_BYTES]; ACTIVATIONS]
    ensures { result ≡ no_locals }
{
    [[0; LOCAL_BYTES]; ACTIVATIONS]
}

/// The position of a number in ascending ones.
fn position(numbers: &[u16], number: u16) -> Option<usize>
    requires { Ascend 1 numbers.now }
    ensures { result ≡ position_of number numbers.now }
{
    numbers.binary_search(&number).ok()
}

/// The bytes of the data block of a number, by the numbers and the bytes of all.
fn block<'a>(numbers: &[u16], blocks: &'a [Vec<u8>], number: u16) -> Option<&'a [u8]>
    requires { Ascend 1 numbers.now × (length blocks.now ≡ length numbers.now) }
    ensures { MatchOption result
        (block_of number (data_blocks_of numbers.now (map (λ b. b.items) blocks.now)) ≡ None)
        (λ bytes. bytes_in (block_of number (data_blocks_of numbers.now (map (λ b. b.items) blocks.now))) ≡ Some bytes.now) }
{
    match position(numbers, number) {
        Some(position) => Some(blocks[position].as_slice()),
        None => None,
    }
}

/// The bytes of an activation.
fn part(parts: &[[u8; LOCAL_BYTES]; ACTIVATIONS], activation: u8) -> &[u8]
    requires { activation < ACTIVATIONS }
    ensures { slice_get parts.now activation ≡ Some result.now }
{
    let part = &parts[activation as usize];
    part
}

/// Puts bytes into the block at a position.
#[inline(always)]
fn replace_in_block(blocks: &mut [Vec<u8>], position: usize, at: usize, new: &[u8])
    requires within { position < length blocks.old }
    requires room { at + length new.now ≤ length (get_or (map (λ b. b.items) blocks.old) position []) }
    ensures { map (λ b. b.items) blocks.new ≡ slice_set (map (λ b. b.items) blocks.old) position
        (overwrite (get_or (map (λ b. b.items) blocks.old) position []) at new.now) }
{
    replace(&mut blocks[position], at, new);
}

/// Puts bytes into the part of an activation.
#[inline(always)]
fn replace_in_part(
    parts: &mut [[u8; LOCAL_BYTES]; ACTIVATIONS],
    activation: u8,
    at: usize,
    new: &[u8],
)
    requires within { activation < ACTIVATIONS }
    requires room { at + length new.now ≤ length (get_or parts.old activation []) }
    ensures { parts.new ≡ slice_set parts.old activation (overwrite (get_or parts.old activation []) at new.now) }
{
    let part = &mut parts[activation as usize];
    replace(part, at, new);
}

/// The numbers of some data blocks. That they have 16 bits is what their type says, which a clause on blocks
/// does not know.
fn numbers_of(alloc: Global, blocks: &[DataBlock]) -> Result<Vec<u16>, NoMemory>
    ensures numbers { IfOk result (λ numbers. numbers.items ≡ numbers_of blocks.now) }
    ensures small { IfOk result (λ numbers. All (λ (n : ℕ). n < 2 ^ 16) numbers.items) }
{
    let mut numbers = Vec::with_capacity(alloc, blocks.len())?;
    for block in blocks {
        numbers.push(block.number)?;
    }
    Ok(numbers)
}

/// The bytes of some data blocks.
fn bytes_of(alloc: Global, blocks: &[DataBlock]) -> Result<Vec<Vec<u8>>, NoMemory>
    ensures stored { IfOk result (λ stored. map (λ b. b.items) stored.items ≡ map (λ b. b.bytes) blocks.now) }
    ensures small { OnOk result (All HasBytes blocks.now) }
{
    let mut stored = Vec::with_capacity(alloc, blocks.len())?;
    for block in blocks {
        let bytes = block.bytes.as_slice();
        stored.push(copy_of_bytes(alloc, bytes)?)?;
    }
    Ok(stored)
}

/// Copies of the bytes of some data blocks.
fn copies_of(alloc: Global, blocks: &[Vec<u8>]) -> Result<Vec<Vec<u8>>, NoMemory>
    ensures { IfOk result (λ copies. map (λ b. b.items) copies.items ≡ map (λ b. b.items) blocks.now) }
{
    let mut copies = Vec::with_capacity(alloc, blocks.len())?;
    for block in blocks {
        copies.push(Vec::from_slice(alloc, block.as_slice())?)?;
    }
    Ok(copies)
}

impl Memory {
    /// A memory of zeros with these data blocks, which have their own bytes.
    pub fn new(alloc: Global, blocks: &[DataBlock]) -> Result<Memory, NoMemory>
        requires { AreBlocks blocks.now }
        ensures fresh { IfOk result (λ memory. memory ≡ fresh blocks.now) }
        ensures memory { IfOk result (λ memory. IsMemoryOf blocks.now memory.areas) }
        ensures numbers { OnOk result (All (λ (n : ℕ). n < 2 ^ 16) (numbers_of blocks.now)) }
    {
        Ok(Memory {
            inputs: zeros(alloc, INPUT_BYTES)?,
            outputs: zeros(alloc, OUTPUT_BYTES)?,
            markers: zeros(alloc, MARKER_BYTES)?,
            numbers: numbers_of(alloc, blocks)?,
            blocks: bytes_of(alloc, blocks)?,
            locals: no_locals(),
            cells: no_locals(),
        })
    }

    /// A copy of the memory.
    pub fn copy(&self, alloc: Global) -> Result<Memory, NoMemory>
        ensures { IfOk result (λ memory. memory ≡ self.now) }
    {
        Ok(Memory {
            inputs: Vec::from_slice(alloc, self.inputs.as_slice())?,
            outputs: Vec::from_slice(alloc, self.outputs.as_slice())?,
            markers: Vec::from_slice(alloc, self.markers.as_slice())?,
            numbers: Vec::from_slice(alloc, self.numbers.as_slice())?,
            blocks: copies_of(alloc, &self.blocks)?,
            locals: self.locals,
            cells: self.cells,
        })
    }

    /// Whether the memory has the data block of this number.
    pub fn has_block(&self, number: u16) -> bool
        ensures { result ≡ is_some (block_of number self.now.areas.blocks) }
    {
        position(&self.numbers, number).is_some()
    }

    /// The numbers of the data blocks, ascending.
    pub fn numbers(&self) -> &[u16]
        ensures value { result.now ≡ numbers_of self.now.areas.blocks }
        ensures ascend { Ascend 1 result.now }
    {
        self.numbers.as_slice()
    }

    /// The bytes of an area; `None` exactly for a data block that does not exist.
    #[inline(always)]
    pub fn bytes(&self, area: Area) -> Option<&[u8]>
        requires { IsActivation area }
        ensures { MatchOption result (IsMissing area self.now) (λ bytes. bytes_of area self.now ≡ Some bytes.now) }
    {
        match area {
            Area::I => Some(self.inputs.as_slice()),
            Area::Q => Some(self.outputs.as_slice()),
            Area::M => Some(self.markers.as_slice()),
            Area::Local(activation) => Some(part(&self.locals, activation)),
            Area::Cell(activation) => Some(part(&self.cells, activation)),
            Area::Db(number) => block(&self.numbers, &self.blocks, number),
        }
    }

    /// Tests an access to a place, and touches nothing.
    pub fn find(&self, place: Place, width: Width) -> Result<(), Fault>
        requires { IsActivation place.area }
        ensures { result ≡ unless (fault_of (aim_of_place place) width self.now) tt }
    {
        self.bytes_for_access(place, width)?;
        Ok(())
    }

    /// The bytes of the area that an access to a place reaches. It is inlined, so that the place is not
    /// copied and the width is known.
    #[inline(always)]
    fn bytes_for_access(&self, place: Place, width: Width) -> Result<&[u8], Fault>
        requires { IsActivation place.area }
        ensures { MatchResult result
            (λ bytes. (bytes_for_access place width self.now ≡ Ok bytes.now)
            × (place.byte + bytes_wide width ≤ length bytes.now))
            (λ fault. bytes_for_access place width self.now ≡ Err fault) }
    {
        if is_closed(place.area) {
            return Err(Fault::DbNotOpen);
        }
        let Some(bytes) = self.bytes(place.area) else {
            return Err(Fault::DbMissing);
        };
        if is_unaligned(width, place.bit) {
            return Err(Fault::Alignment);
        }
        if bytes.len() < place.byte as usize + bytes_wide(width) {
            return Err(Fault::AreaLength);
        }
        Ok(bytes)
    }

    /// The bit at a place, or the fault of the access.
    #[inline(always)]
    pub fn read_bit(&self, place: Place) -> Result<bool, Fault>
        requires { IsActivation place.area }
        ensures { result ≡ read_bit place self.now }
    {
        let bytes = self.bytes_for_access(place, Width::Bit)?;
        Ok(bit_of_byte(bytes[place.byte as usize], place.bit))
    }

    /// The byte at a place, or the fault of the access.
    #[inline(always)]
    pub fn read_byte(&self, place: Place) -> Result<u8, Fault>
        requires { IsActivation place.area }
        ensures { result ≡ read_byte place self.now }
    {
        let bytes = self.bytes_for_access(place, Width::Byte)?;
        Ok(bytes[place.byte as usize])
    }

    /// The word that begins at a place, its first byte the high one, or the fault of the access.
    #[inline(always)]
    pub fn read_word(&self, place: Place) -> Result<u16, Fault>
        requires { IsActivation place.area }
        ensures { result ≡ read_word place self.now }
    {
        let bytes = self.bytes_for_access(place, Width::Word)?;
        Ok(word_at(bytes, place.byte as usize))
    }

    /// The double word that begins at a place, its first byte the highest, or the fault of the access.
    #[inline(always)]
    pub fn read_dword(&self, place: Place) -> Result<u32, Fault>
        requires { IsActivation place.area }
        ensures { result ≡ read_dword place self.now }
    {
        let bytes = self.bytes_for_access(place, Width::Dword)?;
        Ok(dword_at(bytes, place.byte as usize))
    }

    /// Puts bytes into an area that exists and has room for them. It is inlined, so that the number of bytes
    /// is known where they are stored.
    #[inline(always)]
    fn write_bytes(&mut self, place: Place, new: &[u8])
        requires { HasRoom (bytes_of place.area self.old) place.byte (length new.now) }
        ensures { self.new ≡ write_bytes place (bytes_there (Some place.area) self.old) new.now self.old }
    {
        let at = place.byte as usize;
        match place.area {
            Area::I => replace(&mut self.inputs, at, new),
            Area::Q => replace(&mut self.outputs, at, new),
            Area::M => replace(&mut self.markers, at, new),
            Area::Local(activation) => replace_in_part(&mut self.locals, activation, at, new),
            Area::Cell(activation) => replace_in_part(&mut self.cells, activation, at, new),
            Area::Db(number) => {
                if let Some(position) = position(&self.numbers, number) {
                    replace_in_block(&mut self.blocks, position, at, new);
                }
            }
        }
    }

    /// Writes one bit; a refused write leaves the memory as it was.
    #[inline(always)]
    pub fn write_bit(&mut self, place: Place, value: bool) -> Result<(), Fault>
        requires { IsActivation place.area }
        ensures { Writes (write_bit place value self.old) result self.old self.new }
    {
        let bytes = self.bytes_for_access(place, Width::Bit)?;
        let byte = byte_with(bytes[place.byte as usize], place.bit, value);
        self.write_bytes(place, &[byte]);
        Ok(())
    }

    /// Writes a byte; a refused write leaves the memory as it was.
    #[inline(always)]
    pub fn write_byte(&mut self, place: Place, value: u8) -> Result<(), Fault>
        requires { IsActivation place.area }
        ensures { Writes (write_byte place value self.old) result self.old self.new }
    {
        self.bytes_for_access(place, Width::Byte)?;
        self.write_bytes(place, &[value]);
        Ok(())
    }

    /// Writes a word into two bytes, the high one first; a refused write leaves the memory as it was.
    #[inline(always)]
    pub fn write_word(&mut self, place: Place, value: u16) -> Result<(), Fault>
        requires { IsActivation place.area }
        ensures { Writes (write_word place value self.old) result self.old self.new }
    {
        self.bytes_for_access(place, Width::Word)?;
        self.write_bytes(place, &bytes_of_word(value));
        Ok(())
    }

    /// Writes a double word into four bytes, the highest first; a refused write leaves the memory as it
    /// was.
    #[inline(always)]
    pub fn write_dword(&mut self, place: Place, value: u32) -> Result<(), Fault>
        requires { IsActivation place.area }
        ensures { Writes (write_dword place value self.old) result self.old self.new }
    {
        self.bytes_for_access(place, Width::Dword)?;
        self.write_bytes(place, &bytes_of_dword(value));
        Ok(())
    }

    /// Makes the local data and the constant actuals of an activation zero.
    pub fn clear(&mut self, depth: u8)
        requires { depth < ACTIVATIONS }
        ensures after { self.new ≡ with_zero_activation depth self.old }
        ensures activations { HasActivations self.new }
    {
        self.locals[depth as usize] = [0; LOCAL_BYTES];
        self.cells[depth as usize] = [0; LOCAL_BYTES];
    }

    /// Makes the local data and the constant actuals of all activations zero, with which a run begins.
    pub fn clear_all(&mut self)
        ensures { self.new ≡ with_areas self.old.areas }
    {
        self.locals = no_locals();
        self.cells = no_locals();
    }
}
