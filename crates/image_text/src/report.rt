//! Writes a report.
ghost use Rattle.std.specs.Prelude.{◌≡◌, ◌++◌, ◌<◌, ◌||◌, codes, decimal, drop, flat_map, length, take, IfOk, OnOk};
ghost use Rattle.std.specs.List.{list_any};
ghost use Rattle.memory_areas.specs.Access.{bytes_there};
ghost use Rattle.memory_areas.specs.Memory.{IsActivation};
ghost use Rattle.image_text.specs.inner.Fields.{numbered_text};
ghost use Rattle.image_text.specs.Report.{area_text, block_text, byte_text, end_text, fault_name, is_set, memory_text, report, row_shown, row_text};

use crate::pieces::rest_after;
use digit_texts::hex_digit;
use itoa::Buffer;
use memory_areas::{Area, INPUT_BYTES, MARKER_BYTES, Memory, OUTPUT_BYTES};
use s7_base::{Fault, NoMemory, Outcome};
use std::alloc::Global;

/// How many bytes a line shows.
const ROW: usize = 16;

/// Room for the characters of a line of a report: `DB65535 16368:`, 16 bytes and a line end.
const ROW_ROOM: usize = 64;

fn fault_name(fault: Fault) -> &'static str
    ensures { result.now ≡ fault_name fault }
{
    match fault {
        Fault::DbNotOpen => "DbNotOpen",
        Fault::DbMissing => "DbMissing",
        Fault::AreaCode => "AreaCode",
        Fault::Alignment => "Alignment",
        Fault::AreaLength => "AreaLength",
        Fault::BcdDigit => "BcdDigit",
        Fault::DivideByZero => "DivideByZero",
    }
}

fn push_text(out: &mut Vec<u8>, text: &str) -> Result<(), NoMemory>
    ensures { OnOk result (out.new.items ≡ out.old.items ++ text.now) }
{
    out.extend_from_slice(text.as_bytes())?;
    Ok(())
}

fn put_number(out: &mut Vec<u8>, number: usize) -> Result<(), NoMemory>
    ensures { OnOk result (out.new.items ≡ out.old.items ++ decimal number) }
{
    let mut buffer = Buffer::new();
    push_text(out, buffer.format(number))
}

fn put_byte(out: &mut Vec<u8>, byte: u8) -> Result<(), NoMemory>
    ensures { OnOk result (out.new.items ≡ out.old.items ++ byte_text byte) }
{
    out.extend_from_slice(&[b' ', hex_digit(byte / 16), hex_digit(byte % 16)])?;
    Ok(())
}

fn put_bytes(out: &mut Vec<u8>, row: &[u8]) -> Result<(), NoMemory>
    ensures { OnOk result (out.new.items ≡ out.old.items ++ flat_map byte_text row.now) }
{
    for byte in row {
        put_byte(out, *byte)?;
    }
    Ok(())
}

fn put_row(out: &mut Vec<u8>, name: &[u8], at: usize, row: &[u8]) -> Result<(), NoMemory>
    ensures { OnOk result (out.new.items ≡ out.old.items ++ row_text name.now at row.now) }
{
    out.extend_from_slice(name)?;
    push_text(out, " ")?;
    put_number(out, at)?;
    push_text(out, ":")?;
    put_bytes(out, row)?;
    push_text(out, "\n")
}

fn has_set(row: &[u8]) -> bool
    ensures { result ≡ list_any is_set row.now }
{
    row.iter().any(|b| *b != 0)
}

/// The line of 16 bytes from a byte on, where all lines are shown or a byte of it is not zero.
fn show_row(
    out: &mut Vec<u8>,
    all: bool,
    name: &[u8],
    at: usize,
    row: &[u8],
) -> Result<(), NoMemory>
    ensures { OnOk result (out.new.items ≡ out.old.items ++ row_shown all name.now at row.now) }
{
    if all || has_set(row) {
        put_row(out, name, at, row)?;
    }
    Ok(())
}

/// The bytes of the line that begins at a byte.
fn row_at(bytes: &[u8], at: usize) -> &[u8]
    requires { at < length bytes.now }
    ensures { result.now ≡ take 16 (drop at bytes.now) }
{
    let rest = rest_after(bytes, at);
    let (row, _) = rest.split_at(rest.len().min(ROW));
    row
}

fn put_area(out: &mut Vec<u8>, all: bool, name: &[u8], bytes: &[u8]) -> Result<(), NoMemory>
    ensures { OnOk result (out.new.items ≡ out.old.items ++ area_text all name.now 0 bytes.now) }
{
    let mut at = 0;
    while at < bytes.len() {
        show_row(out, all, name, at, row_at(bytes, at))?;
        at += ROW;
    }
    Ok(())
}

fn block_name(alloc: Global, number: u16) -> Result<Vec<u8>, NoMemory>
    ensures { IfOk result (λ name. name.items ≡ codes "DB" ++ decimal number) }
{
    let mut name = Vec::from_slice(alloc, b"DB")?;
    put_number(&mut name, usize::from(number))?;
    Ok(name)
}

fn put_block(alloc: Global, out: &mut Vec<u8>, number: u16, bytes: &[u8]) -> Result<(), NoMemory>
    ensures { OnOk result (out.new.items ≡ out.old.items
        ++ block_text (record { number = number; bytes = bytes.now })) }
{
    let name = block_name(alloc, number)?;
    put_area(out, true, name.as_slice(), bytes)
}

fn area_bytes(memory: &Memory, area: Area) -> &[u8]
    requires { IsActivation area }
    ensures { result.now ≡ bytes_there (Some area) memory.now }
{
    match memory.bytes(area) {
        Some(bytes) => bytes,
        None => &[],
    }
}

/// The data block that is shown under a number.
fn put_numbered(
    alloc: Global,
    out: &mut Vec<u8>,
    memory: &Memory,
    number: u16,
) -> Result<(), NoMemory>
    ensures { OnOk result (out.new.items ≡ out.old.items ++ numbered_text memory.now number) }
{
    put_block(alloc, out, number, area_bytes(memory, Area::Db(number)))
}

fn put_blocks(alloc: Global, out: &mut Vec<u8>, memory: &Memory) -> Result<(), NoMemory>
    ensures { OnOk result (out.new.items ≡ out.old.items ++ flat_map block_text memory.now.areas.blocks) }
{
    for number in memory.numbers() {
        put_numbered(alloc, out, memory, *number)?;
    }
    Ok(())
}

/// How many characters the lines of a memory take at most.
fn room_for(memory: &Memory) -> usize {
    let mut rows: usize = (INPUT_BYTES + OUTPUT_BYTES + MARKER_BYTES) / ROW;
    for number in memory.numbers() {
        let bytes = area_bytes(memory, Area::Db(*number));
        rows = rows.saturating_add(bytes.len() / ROW + 1);
    }
    rows.saturating_mul(ROW_ROOM)
}

fn put_memory(alloc: Global, out: &mut Vec<u8>, memory: &Memory) -> Result<(), NoMemory>
    ensures { OnOk result (out.new.items ≡ out.old.items ++ memory_text memory.now.areas) }
{
    out.reserve(room_for(memory))?;
    put_area(out, false, b"I", area_bytes(memory, Area::I))?;
    put_area(out, false, b"Q", area_bytes(memory, Area::Q))?;
    put_area(out, false, b"M", area_bytes(memory, Area::M))?;
    put_blocks(alloc, out, memory)
}

fn put_end(out: &mut Vec<u8>, fault: Option<Fault>) -> Result<(), NoMemory>
    ensures { OnOk result (out.new.items ≡ out.old.items ++ end_text fault) }
{
    match fault {
        None => push_text(out, "# ENDED\n"),
        Some(fault) => {
            push_text(out, "# FAULT ")?;
            push_text(out, fault_name(fault))?;
            push_text(out, "\n")
        }
    }
}

fn put_report(
    alloc: Global,
    out: &mut Vec<u8>,
    memory: &Memory,
    outcome: Outcome,
) -> Result<(), NoMemory>
    ensures { OnOk result (out.new.items ≡ out.old.items ++ report outcome memory.now.areas) }
{
    match outcome {
        Outcome::Ended(fault) => {
            put_end(out, fault)?;
            put_memory(alloc, out, memory)
        }
        Outcome::Going => push_text(out, "# GOING\n"),
    }
}

/// The report of a run with this outcome and memory.
pub fn image_text(alloc: Global, memory: &Memory, outcome: Outcome) -> Result<Vec<u8>, NoMemory>
    ensures { IfOk result (λ text. text.items ≡ report outcome memory.now.areas) }
{
    let mut out = Vec::new(alloc);
    put_report(alloc, &mut out, memory, outcome)?;
    Ok(out)
}
