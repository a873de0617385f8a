//! The blocks of a text.
ghost use Rattle.std.specs.Prelude.{◌≡◌, None, Some, IfOk, OnOk};
ghost use Rattle.s7_base.specs.Answers.{Answers};
ghost use Rattle.s7_base.specs.Tokens.{line_at_end};
ghost use Rattle.stl_grammar.specs.Items.{items_of};
ghost use Rattle.stl_grammar.specs.RawPrograms.{data_headed, block_from_heading, nothing_read, with_heading, raw_read, with_item, raw_program, raw_text};
ghost use Rattle.stl_grammar.specs.declared.item.Item.TheVariants as item;
ghost use Rattle.stl_reader.specs.inner.Finding.{read_behind};
ghost use Rattle.stl_reader.specs.inner.Following.{with_last, with_last_db};

use crate::item::item_at;
use s7_base::{Line, List, NoMemory, Rejection, Token, rest_after};
use std::alloc::Global;
use std::collections::LinkedList;
use std::mem::replace;
use stl_declarations::{put_closed, put_type};
use stl_grammar::{Item, NextItem, Reading, Section, Where};
use stl_lexer::tokens;
use stl_tree::{
    BlockKind, ElemType, RawBlock, RawData, RawDataKind, RawInitial, RawInstr, RawName, RawProgram,
    SymbolLine,
};

/// A block of which only the heading is known.
fn block_from_heading(
    alloc: Global,
    line: Line,
    kind: BlockKind,
    name: RawName,
    result_type: Option<ElemType>,
) -> RawBlock
    ensures { result ≡ block_from_heading line kind name result_type }
{
    RawBlock {
        kind,
        name,
        line,
        result: result_type,
        inputs: List::new(alloc),
        outputs: List::new(alloc),
        in_outs: List::new(alloc),
        statics: List::new(alloc),
        temps: List::new(alloc),
        body: List::new(alloc),
        end_line: line,
    }
}

/// A data block of which only the heading is known.
fn data_headed(alloc: Global, line: Line, name: RawName) -> RawData
    ensures { result ≡ data_headed line name }
{
    RawData {
        name,
        line,
        kind: RawDataKind::Own(List::new(alloc)),
        initial: List::new(alloc),
    }
}

/// Ends the last block; another follows it, or none.
fn follow_block(reading: &mut Reading, next: Option<RawBlock>) -> Result<(), NoMemory>
    ensures { OnOk result (reading.new ≡ with_last next reading.old) }
{
    match replace(&mut reading.last, next) {
        Some(block) => reading.done.push(block),
        None => Ok(()),
    }
}

/// Ends the last data block; another follows it, or none.
fn follow_data(reading: &mut Reading, next: Option<RawData>) -> Result<(), NoMemory>
    ensures { OnOk result (reading.new ≡ with_last_db next reading.old) }
{
    match replace(&mut reading.last_db, next) {
        Some(db) => reading.dbs.push(db),
        None => Ok(()),
    }
}

/// Opens a data block.
fn open_data(reading: &mut Reading, db: RawData) -> Result<(), NoMemory>
    ensures { OnOk result (reading.new ≡ with_last_db (Some db) (with_last None reading.old)) }
{
    follow_data(reading, Some(db))?;
    follow_block(reading, None)
}

/// Opens a block of another kind.
fn open_block(reading: &mut Reading, block: RawBlock) -> Result<(), NoMemory>
    ensures { OnOk result (reading.new ≡ with_last_db None (with_last (Some block) reading.old)) }
{
    follow_block(reading, Some(block))?;
    follow_data(reading, None)
}

/// Adds the heading of a block.
fn put_opened(
    alloc: Global,
    reading: &mut Reading,
    line: Line,
    kind: BlockKind,
    name: RawName,
    result_type: Option<ElemType>,
) -> Result<(), NoMemory>
    ensures { OnOk result (reading.new ≡ with_heading line kind name result_type reading.old) }
{
    match kind {
        BlockKind::Db => open_data(reading, data_headed(alloc, line, name)),
        BlockKind::Ob | BlockKind::Fc | BlockKind::Fb => {
            open_block(
                reading,
                block_from_heading(alloc, line, kind, name, result_type),
            )
        }
    }
}

/// Opens a section.
fn put_section(reading: &mut Reading, section: Section)
    ensures { reading.new ≡ with_item reading.old (item.Starts section) }
{
    reading.section = section;
}

/// Adds a line of the symbol table.
fn put_symbol(reading: &mut Reading, line: SymbolLine) -> Result<(), NoMemory>
    ensures { OnOk result (reading.new ≡ with_item reading.old (item.Symbol line)) }
{
    reading.symbols.push(line)
}

/// Makes the last data block an instance.
fn put_instance(reading: &mut Reading, name: RawName)
    ensures { reading.new ≡ with_item reading.old (item.InstanceOf name) }
{
    if let Some(db) = &mut reading.last_db {
        db.kind = RawDataKind::Instance(name);
    }
}

/// Adds an instruction to the last block.
fn put_instr(reading: &mut Reading, instr: RawInstr) -> Result<(), NoMemory>
    ensures { OnOk result (reading.new ≡ with_item reading.old (item.Instr instr)) }
{
    match &mut reading.last {
        Some(block) => block.body.push(instr),
        None => Ok(()),
    }
}

/// Adds an initial value to the last data block.
fn put_initial(reading: &mut Reading, value: RawInitial) -> Result<(), NoMemory>
    ensures { OnOk result (reading.new ≡ with_item reading.old (item.Initial value)) }
{
    match &mut reading.last_db {
        Some(db) => db.initial.push(value),
        None => Ok(()),
    }
}

/// Adds the end word of the last block.
fn put_end(reading: &mut Reading, line: Line)
    ensures { reading.new ≡ with_item reading.old (item.Ends line) }
{
    if let Some(block) = &mut reading.last {
        block.end_line = line;
    }
}

/// Adds an item to the text so far.
fn put_item(alloc: Global, reading: &mut Reading, item: Item) -> Result<(), NoMemory>
    ensures { OnOk result (reading.new ≡ with_item reading.old item) }
{
    match item {
        Item::Opens(line, kind, name, result_type) => {
            put_opened(alloc, reading, line, kind, name, result_type)
        }
        Item::Starts(section) => {
            put_section(reading, section);
            Ok(())
        }
        Item::Symbol(line) => put_symbol(reading, line),
        Item::Declares(name, line, written) => put_type(alloc, reading, name, line, written),
        Item::InstanceOf(name) => {
            put_instance(reading, name);
            Ok(())
        }
        Item::Closes(items) => put_closed(alloc, reading, items),
        Item::Instr(instr) => put_instr(reading, instr),
        Item::Initial(value) => put_initial(reading, value),
        Item::Ends(line) => {
            put_end(reading, line);
            Ok(())
        }
        Item::Mark => Ok(()),
    }
}

/// The raw program of a text that is read. It leaves the lists of the reading empty.
fn finish(alloc: Global, reading: &mut Reading) -> Result<RawProgram, NoMemory>
    ensures { IfOk result (λ raw. raw ≡ raw_read reading.old) }
{
    follow_block(reading, None)?;
    follow_data(reading, None)?;
    Ok(RawProgram {
        symbols: replace(&mut reading.symbols, List::new(alloc)),
        dbs: replace(&mut reading.dbs, List::new(alloc)),
        blocks: replace(&mut reading.done, List::new(alloc)),
    })
}

/// The raw program of what was read before, and of the tokens of a text that ends on a line. The reading stays
/// with the caller, since a loop that owns one costs the prover a minute.
fn read_items(
    alloc: Global,
    reading: &mut Reading,
    tokens: &[Token],
    end: Line,
) -> Result<RawProgram, Rejection>
    ensures { Answers result (read_behind reading.old (items_of end tokens.now)) }
{
    let mut place = Where::Start;
    let mut rest = tokens;
    loop {
        match item_at(alloc, end, place, rest)? {
            NextItem::Fits(item, size, next) => {
                put_item(alloc, reading, item)?;
                place = next;
                rest = rest_after(rest_after(rest, 1), size);
            }
            NextItem::Misfit(line, reason) => return Err(Rejection::Refused(line, reason)),
            NextItem::Ended => return Ok(finish(alloc, reading)?),
        }
    }
}

/// The raw program of the tokens of a text that ends on a line.
#[tactic(auto, using(crate::proofs::Walk::read_from_nothing), unfolding(stl_grammar::specs::RawPrograms::raw_program))]
fn read_tokens(alloc: Global, tokens: &[Token], end: Line) -> Result<RawProgram, Rejection>
    ensures { Answers result (raw_program end tokens.now) }
{
    let mut reading = Reading {
        symbols: List::new(alloc),
        dbs: List::new(alloc),
        last_db: None,
        done: List::new(alloc),
        last: None,
        section: Section::Temp,
        structs: LinkedList::new(alloc),
    };
    read_items(alloc, &mut reading, tokens, end)
}

/// The line at the end of a text: one more than its ends of lines.
fn line_at_end(bytes: &[u8]) -> Line
    ensures { result ≡ line_at_end bytes.now }
{
    let ends = bytes.iter().filter(|b| **b == b'\n').count();
    Line(ends.saturating_add(1).min(u32::MAX as usize) as u32)
}

/// The raw program of a text, or the first token or item that does not fit.
#[tactic(auto, unfolding(stl_grammar::specs::RawPrograms::raw_text))]
pub fn read_blocks(alloc: Global, bytes: &[u8]) -> Result<RawProgram, Rejection>
    ensures { Answers result (raw_text bytes.now) }
{
    let tokens = tokens(alloc, bytes)?;
    read_tokens(alloc, tokens.as_slice(), line_at_end(bytes))
}
