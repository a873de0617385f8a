//! Declarations: what names mean by them, and the rules that are broken in them.
ghost use Rattle.std.specs.Prelude.{◌≡◌, ◌+◌, ◌++◌, map, not, is_some, IfOk, OnOk};
ghost use Rattle.std.specs.List.{fold};
ghost use Rattle.st_rules.specs.Judged.{twice};
ghost use Rattle.st_rules.specs.Declarations.{all_inside, all_outside, formals_of, is_block, keys_of, local_of, locals_of, meaning_of_global, meaning_of_unit, no_inside, no_outside, one_if, one_too_many, types_of, with_formal, with_global, with_local, with_type, with_unit};
ghost use Rattle.st_names.specs.Names.{look_up, with_entry};
ghost use Rattle.st_tree.specs.Naming.{key_of};

use memory_areas::MOST_BLOCKS;
use s7_base::{Break, Line, List, NoMemory, Reason, note};
use st_names::scope::{Formals, Meaning};
use st_names::table::Table;
use st_rules::declaration::{Inside, Outside};
use st_tree::{Local, RawGlobal, RawGlobalType, RawLocal, RawPou, StType, key_of};
use std::alloc::Global;

/// A sum that a position in the tree can be. One that is too great counts as out of memory.
fn sum_of(a: u32, b: u32) -> Result<u32, NoMemory>
    ensures { IfOk result (λ sum. sum ≡ a + b) }
{
    a.checked_add(b).ok_or(NoMemory)
}

/// Declares a name on a line, and says whether it is new.
fn declare<T: Copy>(
    alloc: Global,
    names: &mut Table<T>,
    name: &List<u8>,
    value: T,
    line: Line,
    breaks: &mut List<Break>,
) -> Result<bool, NoMemory>
    ensures new { IfOk result (λ new. new ≡ not (is_some (look_up (key_of name.now) names.old))) }
    ensures names { OnOk result (names.new ≡ with_entry (key_of name.now) value names.old) }
    ensures breaks { OnOk result (breaks.new ≡ breaks.old ++ twice line (look_up (key_of name.now) names.old)) }
{
    let key = key_of(alloc, name.as_slice())?;
    let new = names.declare(key, value)?;
    if !new {
        note(breaks, line, Reason::DuplicateName)?;
    }
    Ok(new)
}

fn is_block(ty: &RawGlobalType) -> bool
    ensures { result ≡ is_block ty.now }
{
    match ty {
        RawGlobalType::Plain(_) => false,
        RawGlobalType::Bytes(_, _) => true,
    }
}

fn meaning_of_global(position: u32, ty: &RawGlobalType) -> Meaning
    ensures { result ≡ meaning_of_global position ty.now }
{
    match ty {
        RawGlobalType::Plain(ty) => Meaning::Global(position, *ty),
        RawGlobalType::Bytes(_, _) => Meaning::Block,
    }
}

fn meaning_of_unit(position: u32, program: bool) -> Meaning
    ensures { result ≡ meaning_of_unit position program }
{
    if program {
        Meaning::Program
    } else {
        Meaning::Function(position)
    }
}

fn one_if(test: bool) -> u32
    ensures { result ≡ one_if test }
{
    if test { 1 } else { 0 }
}

fn judge_count(line: Line, new: bool, blocks: u32, breaks: &mut List<Break>) -> Result<(), NoMemory>
    ensures { OnOk result (breaks.new ≡ breaks.old ++ one_too_many line new blocks) }
{
    if new && blocks as usize >= MOST_BLOCKS {
        note(breaks, line, Reason::TooLarge)
    } else {
        Ok(())
    }
}

fn with_global(alloc: Global, declared: &mut Outside, global: &RawGlobal) -> Result<(), NoMemory>
    ensures { OnOk result (declared.new ≡ with_global declared.old global.now) }
{
    let meaning = meaning_of_global(declared.globals, &global.ty);
    let block = is_block(&global.ty);
    let new = declare(
        alloc,
        &mut declared.names,
        &global.name,
        meaning,
        global.line,
        &mut declared.breaks,
    )?;
    judge_count(
        global.line,
        new && block,
        declared.blocks,
        &mut declared.breaks,
    )?;
    declared.globals = sum_of(declared.globals, one_if(!block))?;
    declared.blocks = sum_of(declared.blocks, one_if(new && block))?;
    Ok(())
}

fn with_unit(alloc: Global, declared: &mut Outside, unit: &RawPou) -> Result<(), NoMemory>
    ensures { OnOk result (declared.new ≡ with_unit declared.old unit.now) }
{
    let meaning = meaning_of_unit(declared.units, unit.program);
    declare(
        alloc,
        &mut declared.names,
        &unit.name,
        meaning,
        unit.line,
        &mut declared.breaks,
    )?;
    declared.units = sum_of(declared.units, 1)?;
    Ok(())
}

fn no_outside(alloc: Global) -> Outside
    ensures { result ≡ no_outside }
{
    Outside {
        names: Table::new(alloc),
        globals: 0,
        blocks: 0,
        units: 0,
        breaks: List::new(alloc),
    }
}

fn outside_globals(alloc: Global, globals: &[RawGlobal]) -> Result<Outside, NoMemory>
    ensures { IfOk result (λ declared. declared ≡ fold with_global no_outside globals.now) }
{
    let mut declared = no_outside(alloc);
    for global in globals {
        with_global(alloc, &mut declared, global)?;
    }
    Ok(declared)
}

/// What is declared outside the units.
pub fn all_outside(
    alloc: Global,
    globals: &[RawGlobal],
    units: &[RawPou],
) -> Result<Outside, NoMemory>
    ensures { IfOk result (λ declared. declared ≡ all_outside globals.now units.now) }
{
    let mut declared = outside_globals(alloc, globals)?;
    for unit in units {
        with_unit(alloc, &mut declared, unit)?;
    }
    Ok(declared)
}

fn with_formal(alloc: Global, declared: &mut Inside, formal: &RawLocal) -> Result<(), NoMemory>
    ensures { OnOk result (declared.new ≡ with_formal declared.old formal.now) }
{
    let meaning = Meaning::Formal(declared.formals, formal.ty);
    declare(
        alloc,
        &mut declared.names,
        &formal.name,
        meaning,
        formal.line,
        &mut declared.breaks,
    )?;
    declared.formals = sum_of(declared.formals, 1)?;
    Ok(())
}

fn with_local(alloc: Global, declared: &mut Inside, local: &RawLocal) -> Result<(), NoMemory>
    ensures { OnOk result (declared.new ≡ with_local declared.old local.now) }
{
    let meaning = Meaning::Local(declared.locals, local.ty);
    declare(
        alloc,
        &mut declared.names,
        &local.name,
        meaning,
        local.line,
        &mut declared.breaks,
    )?;
    declared.locals = sum_of(declared.locals, 1)?;
    Ok(())
}

fn no_inside(alloc: Global) -> Inside
    ensures { result ≡ no_inside }
{
    Inside {
        names: Table::new(alloc),
        formals: 0,
        locals: 0,
        breaks: List::new(alloc),
    }
}

fn inside_formals(alloc: Global, formals: &[RawLocal]) -> Result<Inside, NoMemory>
    ensures { IfOk result (λ declared. declared ≡ fold with_formal no_inside formals.now) }
{
    let mut declared = no_inside(alloc);
    for formal in formals {
        with_formal(alloc, &mut declared, formal)?;
    }
    Ok(declared)
}

/// What is declared in a unit.
pub fn all_inside(
    alloc: Global,
    formals: &[RawLocal],
    locals: &[RawLocal],
) -> Result<Inside, NoMemory>
    ensures { IfOk result (λ declared. declared ≡ all_inside formals.now locals.now) }
{
    let mut declared = inside_formals(alloc, formals)?;
    for local in locals {
        with_local(alloc, &mut declared, local)?;
    }
    Ok(declared)
}

fn keys_of(alloc: Global, formals: &[RawLocal]) -> Result<List<List<u8>>, NoMemory>
    ensures { IfOk result (λ keys. keys ≡ keys_of formals.now) }
{
    let mut keys = List::new(alloc);
    for formal in formals {
        keys.push(List::from_vec(key_of(alloc, formal.name.as_slice())?))?;
    }
    Ok(keys)
}

fn types_of(alloc: Global, formals: &[RawLocal]) -> Result<Table<StType>, NoMemory>
    ensures { IfOk result (λ types. types ≡ types_of formals.now) }
{
    let mut types = Table::new(alloc);
    for formal in formals {
        types.declare(key_of(alloc, formal.name.as_slice())?, formal.ty)?;
    }
    Ok(types)
}

/// The formals of each unit.
pub fn formals_of(alloc: Global, units: &[RawPou]) -> Result<List<Formals>, NoMemory>
    ensures { IfOk result (λ all. all ≡ map formals_of units.now) }
{
    let mut all = List::new(alloc);
    for unit in units {
        let keys = keys_of(alloc, unit.formals.as_slice())?;
        let types = types_of(alloc, unit.formals.as_slice())?;
        all.push(Formals { keys, types })?;
    }
    Ok(all)
}

/// The formals or the locals of the tree.
pub fn locals_of(alloc: Global, locals: &[RawLocal]) -> Result<List<Local>, NoMemory>
    ensures { IfOk result (λ all. all ≡ locals_of locals.now) }
{
    let mut all = List::new(alloc);
    for local in locals {
        all.push(Local {
            name: local.name.copy(alloc)?,
            ty: local.ty,
        })?;
    }
    Ok(all)
}
