//! The program of a raw program, or the first rule of names, blocks and layouts that it breaks.
ghost use Rattle.std.specs.Prelude.{◌≡◌, ◌++◌, ◌<◌, [], IfOk, None, OnOk, is_none, map, slice_get};
ghost use Rattle.block_variables.specs.Firsts.{with_breaks};
ghost use Rattle.std.specs.List.{filter_map};
ghost use Rattle.std.specs.Option.{option_to_list};
ghost use Rattle.memory_areas.specs.declared.sizes.TheConstants.{MOST_BLOCKS};
ghost use Rattle.s7_base.specs.Answers.{Answers};
ghost use Rattle.s7_base.specs.Broken.{first_of_all};
ghost use Rattle.stl_rules.specs.Programs.{symbol_area, symbol_in};
ghost use Rattle.stl_rules.specs.Stages.{names as names_stage, symbols_behind};
ghost use Rattle.stl_rules.specs.Verdict.{resolved_program};
ghost use Rattle.symbol_names.specs.inner.Kept.{block_within, data_kept, instance_kept, symbol_kept};

use crate::blocks::{Known, note_blocks, put_blocks, variables_of};
use crate::data::{note_too_many, put_dbs};
use crate::headings::{is_address, note_symbols};
use block_variables::BlockVariables;
use data_contents::in_order;
use memory_areas::{Area, AreaName, DataBlock, Place};
use name_tables::Names;
use s7_base::{Break, List, NoMemory, Rejection};
use std::alloc::Global;
use stl_tree::{Block, Instance, Program, RawPlace, RawProgram, Symbol, SymbolAddress, SymbolLine};

/// The parts of a program but for its symbols, as far as they break no rule.
#[derive(Drop)]
struct ProgramParts {
    dbs: List<DataBlock>,
    instances: List<Instance>,
    blocks: List<Block>,
    first: Option<Break>,
}

/// The rules that the symbol table breaks.
fn first_in_symbols(alloc: Global, names: &Names<'_>) -> Result<Option<Break>, NoMemory>
    ensures { IfOk result (λ first. first ≡ with_breaks None (symbols_behind [] names.now.symbols)) }
{
    let mut first = None;
    let lines = names.text().symbols.as_slice();
    note_symbols(alloc, names.symbols(), lines, &mut first)?;
    Ok(first)
}

/// All rules that a raw program breaks, and the parts that can be made, by what its names mean and by the variables of
/// its blocks.
#[tactic(auto, using(crate::proofs::Parts::first_of_names))]
fn parts_with<'s, 't>(
    alloc: Global,
    names: &'s Names<'t>,
    variables: &'s [BlockVariables<'t>],
    raw: &'t RawProgram,
    first: Option<Break>,
) -> Result<ProgramParts, NoMemory>
    requires names { names.now ≡ raw.now }
    requires variables { variables.now ≡ raw.now.blocks }
    requires first { first ≡ with_breaks None (symbols_behind [] raw.now.symbols) }
    ensures dbs { IfOk result (λ p. p.dbs ≡ filter_map (data_kept (is_none (slice_get raw.now.dbs MOST_BLOCKS)) raw.now) raw.now.dbs) }
    ensures instances { IfOk result (λ p. p.instances ≡ filter_map (instance_kept raw.now) raw.now.dbs) }
    ensures blocks { IfOk result (λ p. p.blocks ≡ map (block_within raw.now) raw.now.blocks) }
    ensures first { IfOk result (λ p. p.first ≡ first_of_all (names_stage raw.now)) }
{
    let found = put_dbs(alloc, names, variables, true, raw.dbs.as_slice(), first)?;
    let mut later = found.first;
    note_too_many(raw.dbs.as_slice(), &mut later);
    let known = Known {
        names,
        declarations: found.declarations.as_slice(),
        variables,
    };
    let blocks = put_blocks(alloc, &known, raw.blocks.as_slice(), later)?;
    Ok(ProgramParts {
        dbs: found.made,
        instances: found.instances,
        blocks: blocks.made,
        first: blocks.first,
    })
}

/// All rules that a raw program breaks, and the parts that can be made.
fn parts_of(alloc: Global, raw: &RawProgram) -> Result<ProgramParts, NoMemory>
    ensures dbs { IfOk result (λ p. p.dbs ≡ filter_map (data_kept (is_none (slice_get raw.now.dbs MOST_BLOCKS)) raw.now) raw.now.dbs) }
    ensures instances { IfOk result (λ p. p.instances ≡ filter_map (instance_kept raw.now) raw.now.dbs) }
    ensures blocks { IfOk result (λ p. p.blocks ≡ map (block_within raw.now) raw.now.blocks) }
    ensures first { IfOk result (λ p. p.first ≡ first_of_all (names_stage raw.now)) }
{
    let names = Names::new(alloc, raw)?;
    let first = first_in_symbols(alloc, &names)?;
    let variables = variables_of(alloc, raw.blocks.as_slice())?;
    parts_with(alloc, &names, variables.as_slice(), raw, first)
}

/// The first rule of names, blocks and layouts that a raw program breaks, by what its names mean and by the variables
/// of its blocks.
#[tactic(auto, using(crate::proofs::Parts::first_of_names))]
fn first_with<'s, 't>(
    alloc: Global,
    names: &'s Names<'t>,
    variables: &'s [BlockVariables<'t>],
    raw: &'t RawProgram,
    first: Option<Break>,
) -> Result<Option<Break>, NoMemory>
    requires names { names.now ≡ raw.now }
    requires variables { variables.now ≡ raw.now.blocks }
    requires first { first ≡ with_breaks None (symbols_behind [] raw.now.symbols) }
    ensures { IfOk result (λ first. first ≡ first_of_all (names_stage raw.now)) }
{
    let found = put_dbs(alloc, names, variables, false, raw.dbs.as_slice(), first)?;
    let mut later = found.first;
    note_too_many(raw.dbs.as_slice(), &mut later);
    let known = Known {
        names,
        declarations: found.declarations.as_slice(),
        variables,
    };
    note_blocks(alloc, &known, raw.blocks.as_slice(), &mut later)?;
    Ok(later)
}

/// The first rule of names, blocks and layouts that a raw program breaks. Nothing is made of it.
pub fn first_in_names(alloc: Global, raw: &RawProgram) -> Result<Option<Break>, NoMemory>
    ensures { IfOk result (λ first. first ≡ first_of_all (names_stage raw.now)) }
{
    let names = Names::new(alloc, raw)?;
    let first = first_in_symbols(alloc, &names)?;
    let variables = variables_of(alloc, raw.blocks.as_slice())?;
    first_with(alloc, &names, variables.as_slice(), raw, first)
}

/// The area of a symbol's place.
fn symbol_area(name: AreaName) -> Option<Area>
    ensures { result ≡ symbol_area name }
{
    match name {
        AreaName::I => Some(Area::I),
        AreaName::Q => Some(Area::Q),
        AreaName::M => Some(Area::M),
        _ => None,
    }
}

/// The symbol of a name for a place in its area.
fn symbol_in(name: List<u8>, place: RawPlace) -> Option<Symbol>
    requires { place.bit < 256 }
    ensures { result ≡ symbol_in name place (symbol_area place.area) }
{
    let area = symbol_area(place.area)?;
    Some(Symbol {
        name,
        place: Place {
            area,
            byte: place.byte,
            bit: place.bit as u8,
        },
        width: place.width,
    })
}

/// The symbol of a line, where its address is a place.
fn symbol_of(line: SymbolLine) -> Option<Symbol>
    ensures { result ≡ symbol_kept line }
{
    let SymbolLine { name, address, .. } = line;
    match address {
        SymbolAddress::At(place) if is_address(address) => symbol_in(name, place),
        _ => None,
    }
}

/// The symbols of a program.
#[tactic(auto, using(crate::proofs::Filtered::kept_one))]
fn symbols_of(alloc: Global, lines: List<SymbolLine>) -> Result<List<Symbol>, NoMemory>
    ensures { IfOk result (λ symbols. symbols ≡ filter_map symbol_kept lines) }
{
    let mut symbols = List::new(alloc);
    for line in lines.into_vec() {
        put_symbol(&mut symbols, symbol_of(line))?;
    }
    Ok(symbols)
}

fn put_symbol(symbols: &mut List<Symbol>, symbol: Option<Symbol>) -> Result<(), NoMemory>
    ensures { OnOk result (symbols.new ≡ symbols.old ++ option_to_list symbol) }
{
    match symbol {
        Some(symbol) => symbols.push(symbol),
        None => Ok(()),
    }
}

/// The program of a raw program whose names, blocks and layouts break no rule, or the first rule that they break.
#[tactic(auto, using(crate::proofs::Kept::resolve_laws))]
pub fn resolve(alloc: Global, raw: RawProgram) -> Result<Program, Rejection>
    ensures { Answers result (resolved_program raw) }
{
    let ProgramParts {
        dbs,
        instances,
        blocks,
        first,
    } = parts_of(alloc, &raw)?;
    if let Some(first) = first {
        return Err(Rejection::Refused(first.line, first.rule));
    }
    let dbs = in_order(dbs)?;
    let symbols = symbols_of(alloc, raw.symbols)?;
    Ok(Program {
        dbs,
        instances,
        blocks,
        symbols,
    })
}
