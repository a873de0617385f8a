//! Globals: what they are in the tree, and the rules that are broken in their locations and initial values.
ghost use Rattle.std.specs.Prelude.{◌≡◌, ◌+◌, [], ◌∷◌, ◌++◌, ◌==◌, ◌≤◌, length, nat_lt, replicate, IfOk, OnOk};
ghost use Rattle.std.specs.List.{flat_map, prefix_len};
ghost use Rattle.st_tree.specs.declared.raw.RawGlobalType.TheVariants as RawGlobalType;
ghost use Rattle.s7_base.specs.Broken.{rule_break};
ghost use Rattle.st_names.specs.Lists.{as_list};
ghost use Rattle.memory_areas.specs.Areas.{insert_data_block};
ghost use Rattle.st_rules.specs.Globals.{all_blocks, all_global_breaks, all_located, area_of, block_at, block_breaks, block_number, block_of, contents, fills, fits_type, global_breaks, has_address, has_block_address, has_block_form, is_small_enough, is_start_of, located_at, located_in, located_of, number_from, number_in, total, unless, with_block};

use memory_areas::{Area, AreaName, DataBlock, MOST_BLOCK_BYTES, MOST_BLOCKS, Place};
use s7_base::{Break, Line, List, NoMemory, Reason, Width, note, rest_after};
use st_names::lists::keep;
use st_names::variable::{is_address, is_block_number};
use st_tree::{Located, RawGlobal, RawGlobalType, RawVar, StType, has_width, key_of, names_block};
use std::alloc::Global;

fn has_address(at: &RawVar) -> bool
    ensures { result ≡ has_address at.now }
{
    match at {
        RawVar::Name(_) => true,
        RawVar::Direct(area, block, width, byte, bit) => {
            is_address(*area, *block, *width, *byte, *bit)
        }
    }
}

/// Notes a rule unless a test is true.
fn judge(test: bool, line: Line, rule: Reason, breaks: &mut List<Break>) -> Result<(), NoMemory>
    ensures { OnOk result (breaks.new ≡ breaks.old ++ unless test (rule_break line rule)) }
{
    if test {
        Ok(())
    } else {
        note(breaks, line, rule)
    }
}

fn area_of(area: AreaName) -> Option<Area>
    ensures { result ≡ area_of area }
{
    match area {
        AreaName::I => Some(Area::I),
        AreaName::Q => Some(Area::Q),
        AreaName::M => Some(Area::M),
        AreaName::L | AreaName::Db | AreaName::Di => None,
    }
}

fn fits_type(ty: StType, at: &RawVar) -> bool
    ensures { result ≡ fits_type ty at.now }
{
    match at {
        RawVar::Direct(area, None, width, _, _) => {
            area_of(*area).is_some() && has_width(ty, *width)
        }
        RawVar::Direct(_, Some(_), _, _, _) => false,
        RawVar::Name(_) => false,
    }
}

fn located_in(
    alloc: Global,
    name: &List<u8>,
    ty: StType,
    area: Option<Area>,
    byte: u32,
    bit: u8,
) -> Result<Option<Located>, NoMemory>
    ensures { IfOk result (λ found. found ≡ located_in name.now ty area byte bit) }
{
    let Some(area) = area else {
        return Ok(None);
    };
    let place = Place { area, byte, bit };
    let name = name.copy(alloc)?;
    Ok(Some(Located { name, place, ty }))
}

fn located_at(
    alloc: Global,
    name: &List<u8>,
    ty: StType,
    at: &RawVar,
) -> Result<Option<Located>, NoMemory>
    ensures { IfOk result (λ found. found ≡ located_at name.now ty at.now) }
{
    match at {
        RawVar::Direct(area, None, width, byte, bit) => {
            if is_address(*area, None, *width, *byte, *bit) && has_width(ty, *width) {
                located_in(alloc, name, ty, area_of(*area), *byte, *bit as u8)
            } else {
                Ok(None)
            }
        }
        RawVar::Direct(_, Some(_), _, _, _) => Ok(None),
        RawVar::Name(_) => Ok(None),
    }
}

fn with_digit(value: u32, digit: u8) -> u32
    ensures { result ≡ number_from value (digit ∷ []) }
{
    (u64::from(value) * 10 + u64::from(digit.saturating_sub(48))).min(4_294_967_295) as u32
}

fn number_from(digits: &[u8]) -> u32
    ensures { result ≡ number_from 0 digits.now }
{
    let mut value = 0;
    for digit in digits {
        value = with_digit(value, *digit);
    }
    value
}

fn number_in(key: &[u8]) -> u32
    ensures { result ≡ number_in key.now }
{
    if names_block(key) {
        number_from(rest_after(key, 2))
    } else {
        0
    }
}

fn block_number(alloc: Global, name: &List<u8>) -> Result<u32, NoMemory>
    ensures { IfOk result (λ number. number ≡ block_number name.now) }
{
    let key = key_of(alloc, name.as_slice())?;
    Ok(number_in(key.as_slice()))
}

fn is_start_of(number: u32, at: &RawVar) -> bool
    ensures { result ≡ is_start_of number at.now }
{
    match at {
        RawVar::Direct(AreaName::Db, Some(block), Width::Byte, byte, bit) => {
            *block == number && *byte == 0 && *bit == 0
        }
        _ => false,
    }
}

/// Whether the counts of a list add up to this many bytes.
fn have_bytes(size: u64, runs: &[(u32, u8)]) -> bool
    ensures { result ≡ (total runs.now == size) }
{
    let mut left = size;
    for run in runs {
        let count = u64::from(run.0);
        if left < count {
            return false;
        }
        left -= count;
    }
    left == 0
}

fn fills(last: u32, list: &[(u32, u8)]) -> bool
    ensures { result ≡ fills last list.now }
{
    list.is_empty() || have_bytes(u64::from(last) + 1, list)
}

fn put_run(bytes: &mut Vec<u8>, count: u32, byte: u8) -> Result<(), NoMemory>
    ensures { OnOk result (bytes.new.items ≡ bytes.old.items ++ replicate count byte) }
{
    bytes.resize(bytes.len() + count as usize, byte)?;
    Ok(())
}

fn runs_of(alloc: Global, runs: &[(u32, u8)]) -> Result<Vec<u8>, NoMemory>
    ensures { IfOk result (λ bytes. bytes.items ≡ flat_map (λ run. replicate run.0 run.1) runs.now) }
{
    let mut bytes = Vec::new(alloc);
    for run in runs {
        put_run(&mut bytes, run.0, run.1)?;
    }
    Ok(bytes)
}

fn zeros(alloc: Global, last: u32) -> Result<Vec<u8>, NoMemory>
    ensures { IfOk result (λ bytes. bytes.items ≡ replicate (last + 1) 0) }
{
    let mut bytes = Vec::new(alloc);
    bytes.resize(last as usize + 1, 0)?;
    Ok(bytes)
}

fn contents(alloc: Global, last: u32, list: &[(u32, u8)]) -> Result<List<u8>, NoMemory>
    ensures { IfOk result (λ bytes. bytes ≡ contents last list.now) }
{
    if list.is_empty() {
        return Ok(List::from_vec(zeros(alloc, last)?));
    }
    let bytes = runs_of(alloc, list)?;
    Ok(List::from_vec(bytes))
}

fn is_small_enough(last: u32) -> bool
    ensures { result ≡ is_small_enough last }
{
    last as usize + 1 <= MOST_BLOCK_BYTES
}

fn has_block_address(number: u32, at: &RawVar) -> bool
    ensures { result ≡ has_block_address number at.now }
{
    is_block_number(number) && has_address(at)
}

fn has_block_form(number: u32, at: &RawVar, last: u32, list: &[(u32, u8)]) -> bool
    ensures { result ≡ has_block_form number at.now last list.now }
{
    is_start_of(number, at) && 1 <= last && fills(last, list)
}

fn judge_block(
    line: Line,
    number: u32,
    at: &RawVar,
    last: u32,
    list: &[(u32, u8)],
    breaks: &mut List<Break>,
) -> Result<(), NoMemory>
    ensures { OnOk result (breaks.new ≡ breaks.old ++ block_breaks line number at.now last list.now) }
{
    judge(
        has_block_address(number, at),
        line,
        Reason::BadAddress,
        breaks,
    )?;
    judge(is_small_enough(last), line, Reason::TooLarge, breaks)?;
    judge(
        has_block_form(number, at, last, list),
        line,
        Reason::TypeMismatch,
        breaks,
    )
}

fn block_at(
    alloc: Global,
    number: u32,
    at: &RawVar,
    last: u32,
    list: &[(u32, u8)],
) -> Result<Option<DataBlock>, NoMemory>
    ensures { IfOk result (λ found. found ≡ block_at number at.now last list.now) }
{
    if has_block_address(number, at)
        && is_small_enough(last)
        && has_block_form(number, at, last, list)
    {
        let bytes = contents(alloc, last, list)?;
        let number = number as u16;
        Ok(Some(DataBlock { number, bytes }))
    } else {
        Ok(None)
    }
}

/// How many data blocks at the front have lesser numbers.
fn lesser_before(number: u16, blocks: &[DataBlock]) -> usize
    ensures size { result ≡ prefix_len (λ block. nat_lt block.number number) blocks.now }
    ensures within { result ≤ length blocks.now }
{
    blocks
        .iter()
        .take_while(|block| block.number < number)
        .count()
}

fn insert_block(blocks: &mut Vec<DataBlock>, block: DataBlock) -> Result<(), NoMemory>
    ensures { OnOk result (blocks.new.items ≡ insert_data_block block blocks.old.items) }
{
    let position = lesser_before(block.number, blocks.as_slice());
    blocks.insert(position, block)?;
    Ok(())
}

fn with_block(blocks: &mut Vec<DataBlock>, found: Option<DataBlock>) -> Result<(), NoMemory>
    ensures { OnOk result (blocks.new.items ≡ with_block found blocks.old.items) }
{
    match found {
        Some(block) => {
            if blocks.len() < MOST_BLOCKS {
                insert_block(blocks, block)
            } else {
                Ok(())
            }
        }
        None => Ok(()),
    }
}

/// The globals and the data blocks of a text, and the rules that are broken in them.
#[derive(Drop)]
pub struct Globals {
    pub located: List<Located>,
    pub blocks: Vec<DataBlock>,
    pub breaks: List<Break>,
}

fn with_plain(
    alloc: Global,
    all: &mut Globals,
    global: &RawGlobal,
    ty: StType,
) -> Result<(), NoMemory>
    ensures located { OnOk result (all.new.located ≡ all.old.located
        ++ as_list (located_at global.now.name ty global.now.at)) }
    ensures blocks { OnOk result (all.new.blocks ≡ all.old.blocks) }
    ensures breaks { OnOk result (all.new.breaks ≡ all.old.breaks
        ++ global_breaks (RawGlobalType.Plain ty) global.now.line global.now.name global.now.at) }
{
    judge(
        has_address(&global.at),
        global.line,
        Reason::BadAddress,
        &mut all.breaks,
    )?;
    judge(
        fits_type(ty, &global.at),
        global.line,
        Reason::TypeMismatch,
        &mut all.breaks,
    )?;
    let found = located_at(alloc, &global.name, ty, &global.at)?;
    keep(&mut all.located, found)
}

fn with_bytes(
    alloc: Global,
    all: &mut Globals,
    global: &RawGlobal,
    last: u32,
    list: &[(u32, u8)],
) -> Result<(), NoMemory>
    ensures located { OnOk result (all.new.located ≡ all.old.located) }
    ensures blocks { OnOk result (all.new.blocks.items
        ≡ with_block (block_at (block_number global.now.name) global.now.at last list.now) all.old.blocks.items) }
    ensures breaks { OnOk result (all.new.breaks ≡ all.old.breaks
        ++ block_breaks global.now.line (block_number global.now.name) global.now.at last list.now) }
{
    let number = block_number(alloc, &global.name)?;
    judge_block(global.line, number, &global.at, last, list, &mut all.breaks)?;
    let found = block_at(alloc, number, &global.at, last, list)?;
    with_block(&mut all.blocks, found)
}

fn with_global(alloc: Global, all: &mut Globals, global: &RawGlobal) -> Result<(), NoMemory>
    ensures located { OnOk result (all.new.located ≡ all.old.located
        ++ as_list (located_of global.now.ty global.now.name global.now.at)) }
    ensures blocks { OnOk result (all.new.blocks.items
        ≡ with_block (block_of global.now.ty global.now.name global.now.at) all.old.blocks.items) }
    ensures breaks { OnOk result (all.new.breaks ≡ all.old.breaks
        ++ global_breaks global.now.ty global.now.line global.now.name global.now.at) }
{
    match &global.ty {
        RawGlobalType::Plain(ty) => with_plain(alloc, all, global, *ty),
        RawGlobalType::Bytes(last, list) => {
            with_bytes(alloc, all, global, *last, list.as_slice())
        }
    }
}

/// All globals and data blocks of a text.
pub fn all_globals(alloc: Global, raws: &[RawGlobal]) -> Result<Globals, NoMemory>
    ensures located { IfOk result (λ all. all.located ≡ all_located raws.now) }
    ensures blocks { IfOk result (λ all. all.blocks.items ≡ all_blocks raws.now) }
    ensures breaks { IfOk result (λ all. all.breaks ≡ all_global_breaks raws.now) }
{
    let mut all = Globals {
        located: List::new(alloc),
        blocks: Vec::new(alloc),
        breaks: List::new(alloc),
    };
    for raw in raws {
        with_global(alloc, &mut all, raw)?;
    }
    Ok(all)
}
