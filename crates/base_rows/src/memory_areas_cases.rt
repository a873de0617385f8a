//! Cases for what no clause says: that the definitions give the faults, the bits and the order of bytes that
//! the controller has, and that a call answers while there is memory.
ghost use Rattle.std.specs.Prelude.{◌≡◌, true, IfOk};
ghost use Rattle.memory_areas.specs.Memory.{IsActivation};

use crate::wants::{wants, wants_text};
use memory_areas::{Area, DataBlock, Memory, Place, are_blocks};
use s7_base::{Fault, List, NoMemory, Width};
use std::alloc::Global;
use std::process::Abort;
use std::test::Fail;

/// The areas of `memory_of`, and how many bytes each has.
static AREAS: [(Area, u32); 9] = [
    (Area::I, 2048),
    (Area::Q, 2048),
    (Area::M, 8192),
    (Area::Local(0), 256),
    (Area::Local(7), 256),
    (Area::Cell(0), 256),
    (Area::Cell(7), 256),
    (Area::Db(3), 4),
    (Area::Db(7), 6),
];

/// The widths, and how many bytes each reaches.
static WIDTHS: [(Width, u32); 4] = [
    (Width::Bit, 1),
    (Width::Byte, 1),
    (Width::Word, 2),
    (Width::Dword, 4),
];

/// A data block of these bytes.
fn block_of(alloc: Global, number: u16, bytes: &[u8]) -> Result<DataBlock, NoMemory>
    ensures { IfOk result (λ block. block ≡ record { number = number; bytes = bytes.now }) }
{
    let bytes = List::from_vec(Vec::from_slice(alloc, bytes)?);
    Ok(DataBlock { number, bytes })
}

/// A memory with data block 3 of four bytes and data block 7 of six.
fn memory_of(alloc: Global) -> Result<Memory, NoMemory> {
    let three = block_of(alloc, 3, &[0; 4])?;
    let seven = block_of(alloc, 7, &[0; 6])?;
    Memory::new(alloc, &[three, seven])
}

/// Whether the area is one of the eight activations, or belongs to no activation.
fn is_activation(area: Area) -> bool
    ensures { result ≡ true → IsActivation area }
{
    match area {
        Area::Local(activation) | Area::Cell(activation) => activation < 8,
        Area::I | Area::Q | Area::M | Area::Db(_) => true,
    }
}

/// The answer to an access. `AreaCode`, which no place gives, is used for an activation that does not exist.
fn find(memory: &Memory, area: Area, byte: u32, bit: u8, width: Width) -> Result<(), Fault> {
    if is_activation(area) {
        memory.find(Place { area, byte, bit }, width)
    } else {
        Err(Fault::AreaCode)
    }
}

/// Writes the lowest bits of a value.
fn write(memory: &mut Memory, place: Place, width: Width, value: u32) -> Result<(), Fault> {
    if !is_activation(place.area) {
        return Err(Fault::AreaCode);
    }
    match width {
        Width::Bit => memory.write_bit(place, value % 2 == 1),
        Width::Byte => memory.write_byte(place, (value & 0xff) as u8),
        Width::Word => memory.write_word(place, (value & 0xffff) as u16),
        Width::Dword => memory.write_dword(place, value),
    }
}

/// The value of a width at a place.
fn read(memory: &Memory, place: Place, width: Width) -> Result<u32, Fault> {
    if !is_activation(place.area) {
        return Err(Fault::AreaCode);
    }
    match width {
        Width::Bit => Ok(u32::from(memory.read_bit(place)?)),
        Width::Byte => Ok(u32::from(memory.read_byte(place)?)),
        Width::Word => Ok(u32::from(memory.read_word(place)?)),
        Width::Dword => memory.read_dword(place),
    }
}

/// The bytes of an area.
fn bytes_of(memory: &Memory, area: Area) -> Option<&[u8]> {
    if is_activation(area) {
        memory.bytes(area)
    } else {
        None
    }
}

/// How many bytes are not zero.
fn count_in(bytes: &[u8]) -> usize {
    let mut count = 0_usize;
    for byte in bytes {
        count = count.saturating_add(usize::from(*byte != 0));
    }
    count
}

/// How many bytes of these areas are not zero.
fn count_set_in(memory: &Memory, areas: &[(Area, u32)]) -> usize {
    let mut count = 0_usize;
    for (area, _) in areas {
        count = count.saturating_add(count_in(bytes_of(memory, *area).unwrap_or(&[])));
    }
    count
}

/// How many bytes of all areas are not zero.
fn count_set(memory: &Memory) -> usize {
    count_set_in(memory, &AREAS)
}

/// The first place of an area.
fn first_of(area: Area) -> Place {
    Place {
        area,
        byte: 0,
        bit: 0,
    }
}

/// Has each of these areas begin with the bytes 1, 3, 5 and 7.
fn fill(memory: &mut Memory, areas: &[(Area, u32)]) {
    for (area, _) in areas {
        let _ = write(memory, first_of(*area), Width::Dword, 0x0103_0507);
    }
}

/// A memory in which each area begins with the bytes 1, 3, 5 and 7.
fn sample_memory(alloc: Global) -> Result<Memory, NoMemory> {
    let mut memory = memory_of(alloc)?;
    fill(&mut memory, &AREAS);
    Ok(memory)
}

/// Accesses of a width in an area of a size: those that reach its last byte, and none after it.
fn wants_reached(rt: &impl Abort, memory: &Memory, area: Area, width: Width, last: u32) {
    let behind = last.saturating_add(1);
    let found = (
        find(memory, area, 0, 0, width),
        find(memory, area, last, 0, width),
        find(memory, area, behind, 0, width),
        find(memory, area, 0xffff_ffff, 0, width),
    );
    let none = Err(Fault::AreaLength);
    wants(rt, &(area, width), &found, &(Ok(()), Ok(()), none, none));
}

fn want_reached(rt: &impl Abort, memory: &Memory, areas: &[(Area, u32)], widths: &[(Width, u32)]) {
    for (area, size) in areas {
        for (width, reach) in widths {
            wants_reached(rt, memory, *area, *width, size.saturating_sub(*reach));
        }
    }
}

#[test]
fn last_bytes_are_reached_and_none_behind(rt: HostRuntime) -> Result<(), Fail> {
    let memory = memory_of(rt.alloc())?;
    want_reached(&rt, &memory, &AREAS, &WIDTHS);
    Ok(())
}

/// Accesses, and the first fault of each.
static ACCESSES: [(Area, u32, u8, Width, Result<(), Fault>); 13] = [
    (Area::Db(0), 9, 9, Width::Bit, Err(Fault::DbNotOpen)),
    (Area::Db(0), 0, 0, Width::Byte, Err(Fault::DbNotOpen)),
    (Area::Db(4), 9, 9, Width::Bit, Err(Fault::DbMissing)),
    (Area::Db(65535), 0, 1, Width::Word, Err(Fault::DbMissing)),
    (Area::Db(3), 9, 8, Width::Bit, Err(Fault::Alignment)),
    (Area::Db(3), 3, 7, Width::Bit, Ok(())),
    (Area::I, 2048, 1, Width::Byte, Err(Fault::Alignment)),
    (Area::Q, 2048, 1, Width::Word, Err(Fault::Alignment)),
    (Area::M, 8192, 1, Width::Dword, Err(Fault::Alignment)),
    (Area::M, 2048, 7, Width::Bit, Ok(())),
    (Area::M, 0, 8, Width::Bit, Err(Fault::Alignment)),
    (Area::Local(3), 256, 0, Width::Bit, Err(Fault::AreaLength)),
    (Area::Cell(3), 0, 255, Width::Bit, Err(Fault::Alignment)),
];

fn want_faults(
    rt: &impl Abort,
    memory: &Memory,
    rows: &[(Area, u32, u8, Width, Result<(), Fault>)],
) {
    for (area, byte, bit, width, answer) in rows {
        let found = find(memory, *area, *byte, *bit, *width);
        wants(rt, &(*area, *byte, *bit, *width), &found, answer);
    }
}

#[test]
fn the_first_fault_is_named(rt: HostRuntime) -> Result<(), Fail> {
    let memory = memory_of(rt.alloc())?;
    want_faults(&rt, &memory, &ACCESSES);
    Ok(())
}

/// What is written from byte 1 on, the first four bytes then, and what is read at byte 0.
type Written = (Width, u8, u32, &'static [u8], u32);

static WRITES: [Written; 8] = [
    (Width::Bit, 0, 0, &[1, 2, 5, 7], 0x0102_0507),
    (Width::Bit, 1, 0, &[1, 1, 5, 7], 0x0101_0507),
    (Width::Bit, 1, 1, &[1, 3, 5, 7], 0x0103_0507),
    (Width::Bit, 7, 1, &[1, 131, 5, 7], 0x0183_0507),
    (Width::Byte, 0, 255, &[1, 255, 5, 7], 0x01ff_0507),
    (Width::Word, 0, 0x1234, &[1, 0x12, 0x34, 7], 0x0112_3407),
    (Width::Word, 0, 0xff80, &[1, 255, 128, 7], 0x01ff_8007),
    (Width::Word, 0, 0x0105, &[1, 1, 5, 7], 0x0101_0507),
];

/// A write into a memory in which each area begins with the bytes 1, 3, 5 and 7.
fn wants_written(rt: &impl Abort, memory: &mut Memory, area: Area, size: u32, row: &Written) {
    let (width, bit, value, first, whole) = *row;
    let place = Place { area, byte: 1, bit };
    let written = write(memory, place, width, value);
    let read_back = read(memory, place, width);
    let all = read(memory, first_of(area), Width::Dword);
    let found = (written, read_back, all);
    wants(rt, &place, &found, &(Ok(()), Ok(value), Ok(whole)));
    let bytes = bytes_of(memory, area).unwrap_or(&[]);
    // Four bytes in each area, as before.
    let found = (bytes.len(), bytes.starts_with(first), count_set(memory));
    wants(rt, &place, &found, &(size as usize, true, 36));
}

fn want_written(
    rt: &impl Abort,
    alloc: Global,
    areas: &[(Area, u32)],
    rows: &[Written],
) -> Result<(), NoMemory> {
    for (area, size) in areas {
        for row in rows {
            let mut memory = sample_memory(alloc)?;
            wants_written(rt, &mut memory, *area, *size, row);
        }
    }
    Ok(())
}

#[test]
fn writes_are_read_back_highest_byte_first(rt: HostRuntime) -> Result<(), Fail> {
    Ok(want_written(&rt, rt.alloc(), &AREAS, &WRITES)?)
}

/// Writes that are refused, each with its fault.
static REFUSED: [(Area, u32, u8, Width, Fault); 8] = [
    (Area::Db(0), 0, 0, Width::Bit, Fault::DbNotOpen),
    (Area::Db(4), 0, 0, Width::Byte, Fault::DbMissing),
    (Area::I, 0, 8, Width::Bit, Fault::Alignment),
    (Area::Q, 0, 1, Width::Byte, Fault::Alignment),
    (Area::M, 8191, 0, Width::Word, Fault::AreaLength),
    (Area::Db(3), 1, 0, Width::Dword, Fault::AreaLength),
    (Area::Local(0), 253, 0, Width::Dword, Fault::AreaLength),
    (Area::Cell(7), 256, 0, Width::Bit, Fault::AreaLength),
];

fn want_refused(rt: &impl Abort, memory: &mut Memory, rows: &[(Area, u32, u8, Width, Fault)]) {
    for (area, byte, bit, width, fault) in rows {
        let place = Place {
            area: *area,
            byte: *byte,
            bit: *bit,
        };
        let written = write(memory, place, *width, 0xffff_ffff);
        let found = (written, read(memory, place, *width), count_set(memory));
        wants(rt, &place, &found, &(Err(*fault), Err(*fault), 0));
    }
}

#[test]
fn a_refused_write_changes_nothing(rt: HostRuntime) -> Result<(), Fail> {
    let mut memory = memory_of(rt.alloc())?;
    want_refused(&rt, &mut memory, &REFUSED);
    Ok(())
}

/// Numbers, and whether data blocks have them.
static NUMBERS: [(u16, bool); 6] = [
    (0, false),
    (1, false),
    (3, true),
    (5, false),
    (7, true),
    (8, false),
];

fn want_blocks(rt: &impl Abort, memory: &Memory, rows: &[(u16, bool)]) {
    for (number, there) in rows {
        let has_bytes = memory.bytes(Area::Db(*number)).is_some();
        let found = (memory.has_block(*number), has_bytes);
        wants(rt, number, &found, &(*there, *there));
    }
}

fn want_sizes(rt: &impl Abort, memory: &Memory, areas: &[(Area, u32)]) {
    for (area, size) in areas {
        let length = bytes_of(memory, *area).map(|bytes| bytes.len());
        wants(rt, area, &length, &Some(*size as usize));
    }
}

#[test]
fn a_new_memory_has_zeros_and_its_blocks(rt: HostRuntime) -> Result<(), Fail> {
    let memory = memory_of(rt.alloc())?;
    let numbers: &[u16] = &[3, 7];
    wants(&rt, &"numbers", &memory.numbers(), &numbers);
    want_blocks(&rt, &memory, &NUMBERS);
    want_sizes(&rt, &memory, &AREAS);
    wants(&rt, &"zeros", &count_set(&memory), &0);
    Ok(())
}

/// Writes to a copy of a memory in which each area begins with the bytes 1, 3, 5 and 7.
fn want_copied(rt: &impl Abort, memory: &Memory, copy: &mut Memory, areas: &[(Area, u32)]) {
    for (area, _) in areas {
        wants(rt, area, &bytes_of(copy, *area), &bytes_of(memory, *area));
        let place = first_of(*area);
        let found = (
            write(copy, place, Width::Byte, 9),
            read(copy, place, Width::Word),
            read(memory, place, Width::Word),
        );
        wants(rt, area, &found, &(Ok(()), Ok(0x0903), Ok(0x0103)));
    }
}

#[test]
fn a_copy_has_the_same_bytes_and_goes_its_own_way(rt: HostRuntime) -> Result<(), Fail> {
    let alloc = rt.alloc();
    let memory = sample_memory(alloc)?;
    let mut copy = memory.copy(alloc)?;
    want_copied(&rt, &memory, &mut copy, &AREAS);
    Ok(())
}

fn want_cleared(rt: &impl Abort, memory: &Memory, areas: &[(Area, u32)]) {
    for (area, _) in areas {
        let value = match area {
            Area::Local(7) | Area::Cell(7) => 0,
            _ => 0x0103_0507,
        };
        let found = read(memory, first_of(*area), Width::Dword);
        wants(rt, area, &found, &Ok(value));
    }
}

#[test]
fn clear_makes_one_activation_zero(rt: HostRuntime) -> Result<(), Fail> {
    let mut memory = sample_memory(rt.alloc())?;
    memory.clear(7);
    want_cleared(&rt, &memory, &AREAS);
    Ok(())
}

#[test]
fn a_data_block_is_copied(rt: HostRuntime) -> Result<(), Fail> {
    let alloc = rt.alloc();
    let bytes = Vec::from_slice(alloc, &[0, 5, 255, 128])?;
    let block = DataBlock {
        number: 7,
        bytes: List::from_vec(bytes),
    };
    let copy = block.copy(alloc)?;
    wants(&rt, &"a copy", &copy.number, &7);
    wants_text(&rt, b"a copy", copy.bytes.as_slice(), &[0, 5, 255, 128]);
    Ok(())
}

/// A data block of zeros.
fn zeros(alloc: Global, number: u16, count: usize) -> Result<DataBlock, NoMemory> {
    let bytes = vec![in alloc; 0; count]?;
    Ok(DataBlock {
        number,
        bytes: List::from_vec(bytes),
    })
}

fn push_zeros(
    alloc: Global,
    blocks: &mut Vec<DataBlock>,
    number: u16,
    count: usize,
) -> Result<(), NoMemory> {
    let block = zeros(alloc, number, count)?;
    Ok(blocks.push(block)?)
}

/// Data blocks of zeros, by their numbers and sizes.
fn blocks_of(alloc: Global, parts: &[(u16, usize)]) -> Result<Vec<DataBlock>, NoMemory> {
    let mut blocks = Vec::new(alloc);
    for (number, count) in parts {
        push_zeros(alloc, &mut blocks, *number, *count)?;
    }
    Ok(blocks)
}

/// Data blocks by their numbers and sizes, and whether a memory can have them.
type Blocks = (&'static [(u16, usize)], bool);

static LISTS: [Blocks; 12] = [
    (&[], true),
    (&[(1, 2)], true),
    (&[(0, 2)], false),
    (&[(1, 1)], false),
    (&[(65535, 16384)], true),
    (&[(65535, 16385)], false),
    (&[(3, 4), (7, 6)], true),
    (&[(7, 6), (3, 4)], false),
    (&[(3, 4), (3, 4)], false),
    (&[(3, 4), (7, 1)], false),
    (&[(3, 4), (4, 4), (65535, 2)], true),
    (&[(3, 4), (65535, 2), (4, 4)], false),
];

fn want_lists(rt: &impl Abort, alloc: Global, rows: &[Blocks]) -> Result<(), NoMemory> {
    for (parts, answer) in rows {
        let blocks = blocks_of(alloc, parts)?;
        wants(rt, parts, &are_blocks(blocks.as_slice()), answer);
    }
    Ok(())
}

#[test]
fn blocks_ascend_and_have_their_sizes(rt: HostRuntime) -> Result<(), Fail> {
    Ok(want_lists(&rt, rt.alloc(), &LISTS)?)
}

/// Tests that a memory takes 1024 data blocks, and not one more.
fn wants_limit(
    rt: &impl Abort,
    alloc: Global,
    blocks: &mut Vec<DataBlock>,
) -> Result<(), NoMemory> {
    for number in 1..=1024 {
        push_zeros(alloc, blocks, number, 2)?;
    }
    wants(rt, &1024, &are_blocks(blocks.as_slice()), &true);
    push_zeros(alloc, blocks, 1025, 2)?;
    wants(rt, &1025, &are_blocks(blocks.as_slice()), &false);
    Ok(())
}

#[test]
fn no_more_than_1024_blocks(rt: HostRuntime) -> Result<(), Fail> {
    let mut blocks = Vec::new(rt.alloc());
    Ok(wants_limit(&rt, rt.alloc(), &mut blocks)?)
}
