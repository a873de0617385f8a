//! The section of globals: data blocks with their bytes, and names of places.
ghost use Rattle.std.specs.Prelude.{◌≡◌, ◌-◌, ◌++◌, decimal, codes, map, flat_map, length, OnOk};
ghost use Rattle.st_tree.specs.Values.{width_at};
ghost use Rattle.st_tree.specs.Words.{type_word};
ghost use Rattle.st_tree.specs.Spelling.{line, byte_text, run_text, list_behind, initial_text, block_text, place_text, place_word, global_text, globals_text};

use crate::statement::put_line;
use crate::text::{put_bytes, put_hexadecimal, put_number, put_text};
use crate::variable::{put_place, put_type};
use memory_areas::{Area, DataBlock};
use s7_base::NoMemory;
use st_tree::{Located, StProgram, width_at};

fn put_byte(out: &mut Vec<u8>, byte: u8) -> Result<(), NoMemory>
    ensures { OnOk result (out.new.items ≡ out.old.items ++ byte_text byte) }
{
    put_text(out, "16#")?;
    put_hexadecimal(out, 2, u64::from(byte))
}

/// Appends equal bytes of an initial value.
fn put_run(out: &mut Vec<u8>, count: usize, byte: u8) -> Result<(), NoMemory>
    ensures { OnOk result (out.new.items ≡ out.old.items ++ run_text count byte) }
{
    if count == 1 {
        return put_byte(out, byte);
    }
    put_number(out, count as u64)?;
    put_text(out, "(")?;
    put_byte(out, byte)?;
    put_text(out, ")")
}

/// Appends equal bytes of an initial value that others follow.
fn put_run_before(out: &mut Vec<u8>, count: usize, byte: u8) -> Result<(), NoMemory>
    ensures { OnOk result (out.new.items ≡ out.old.items ++ (run_text count byte ++ codes ", ")) }
{
    put_run(out, count, byte)?;
    put_text(out, ", ")
}

fn put_list_behind(out: &mut Vec<u8>, first: u8, bytes: &[u8]) -> Result<(), NoMemory>
    ensures { OnOk result (out.new.items ≡ out.old.items ++ list_behind 1 first bytes.now) }
{
    let mut byte = first;
    let mut count = 1_usize;
    let mut rest = bytes;
    while let [next, behind @ ..] = rest {
        if *next == byte {
            count += 1;
        } else {
            put_run_before(out, count, byte)?;
            byte = *next;
            count = 1;
        }
        rest = behind;
    }
    put_run(out, count, byte)
}

/// Appends the initial value of a data block; without bytes there is none.
fn put_initial(out: &mut Vec<u8>, bytes: &[u8]) -> Result<(), NoMemory>
    ensures { OnOk result (out.new.items ≡ out.old.items ++ initial_text bytes.now) }
{
    let [first, rest @ ..] = bytes else {
        return Ok(());
    };
    put_text(out, " := [")?;
    put_list_behind(out, *first, rest)?;
    put_text(out, "]")
}

/// Appends the place of a data block and its last index, from its number on.
fn put_block_place(out: &mut Vec<u8>, number: u16, length: usize) -> Result<(), NoMemory>
    ensures { OnOk result (out.new.items ≡ out.old.items
        ++ decimal number ++ codes ".DBB0 : ARRAY[0.." ++ decimal (length - 1) ++ codes "] OF BYTE") }
{
    put_number(out, u64::from(number))?;
    put_text(out, ".DBB0 : ARRAY[0..")?;
    put_number(out, length.saturating_sub(1) as u64)?;
    put_text(out, "] OF BYTE")
}

/// Appends the name, the place and the last index of a data block.
fn put_block_head(out: &mut Vec<u8>, number: u16, length: usize) -> Result<(), NoMemory>
    ensures { OnOk result (out.new.items ≡ out.old.items
        ++ codes "    DB" ++ decimal number ++ codes " AT %DB" ++ decimal number ++ codes ".DBB0 : ARRAY[0.."
        ++ decimal (length - 1) ++ codes "] OF BYTE") }
{
    put_text(out, "    DB")?;
    put_number(out, u64::from(number))?;
    put_text(out, " AT %DB")?;
    put_block_place(out, number, length)
}

#[tactic(auto, unfolding(st_tree::specs::Spelling::block_text, st_tree::specs::Spelling::line))]
fn put_block(out: &mut Vec<u8>, block: &DataBlock) -> Result<(), NoMemory>
    ensures { OnOk result (out.new.items ≡ out.old.items ++ block_text block.now) }
{
    put_block_head(out, block.number, block.bytes.len())?;
    put_initial(out, block.bytes.as_slice())?;
    put_text(out, ";\n")
}

fn place_word(area: Area) -> &'static str
    ensures { result.now ≡ place_word area }
{
    match area {
        Area::I => "I",
        Area::Q => "Q",
        _ => "M",
    }
}

/// Appends the place and the type of a global, to the end of its line.
fn put_located(out: &mut Vec<u8>, global: &Located) -> Result<(), NoMemory>
    ensures { OnOk result (out.new.items ≡ out.old.items
        ++ place_word global.now.place.area
        ++ place_text (width_at global.now.ty) global.now.place.byte global.now.place.bit
        ++ codes " : " ++ type_word global.now.ty ++ codes ";\n") }
{
    put_text(out, place_word(global.place.area))?;
    put_place(
        out,
        width_at(global.ty),
        global.place.byte,
        global.place.bit,
    )?;
    put_type(out, global.ty)
}

#[tactic(auto, unfolding(st_tree::specs::Spelling::global_text, st_tree::specs::Spelling::line))]
fn put_global(out: &mut Vec<u8>, global: &Located) -> Result<(), NoMemory>
    ensures { OnOk result (out.new.items ≡ out.old.items ++ global_text global.now) }
{
    put_text(out, "    ")?;
    put_bytes(out, global.name.as_slice())?;
    put_text(out, " AT %")?;
    put_located(out, global)
}

fn put_blocks(out: &mut Vec<u8>, blocks: &[DataBlock]) -> Result<(), NoMemory>
    ensures { OnOk result (out.new.items ≡ out.old.items ++ flat_map block_text blocks.now) }
{
    for block in blocks {
        put_block(out, block)?;
    }
    Ok(())
}

fn put_located_globals(out: &mut Vec<u8>, globals: &[Located]) -> Result<(), NoMemory>
    ensures { OnOk result (out.new.items ≡ out.old.items ++ flat_map global_text globals.now) }
{
    for global in globals {
        put_global(out, global)?;
    }
    Ok(())
}

fn put_section(out: &mut Vec<u8>, blocks: &[DataBlock], globals: &[Located]) -> Result<(), NoMemory>
    ensures { OnOk result (out.new.items ≡ out.old.items
        ++ (line 0 (codes "VAR_GLOBAL") ++ flat_map block_text blocks.now ++ flat_map global_text globals.now
        ++ line 0 (codes "END_VAR"))) }
{
    put_line(out, 0, "VAR_GLOBAL")?;
    put_blocks(out, blocks)?;
    put_located_globals(out, globals)?;
    put_line(out, 0, "END_VAR")
}

/// Appends the section of globals; an empty one is not written.
pub fn put_globals(out: &mut Vec<u8>, tree: &StProgram) -> Result<(), NoMemory>
    ensures { OnOk result (out.new.items ≡ out.old.items ++ globals_text tree.now.dbs tree.now.globals) }
{
    let blocks = tree.dbs.as_slice();
    let globals = tree.globals.as_slice();
    if blocks.is_empty() && globals.is_empty() {
        return Ok(());
    }
    put_section(out, blocks, globals)
}
