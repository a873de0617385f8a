//! The rules of the symbol table, and of headings of blocks.
ghost use Rattle.std.specs.Prelude.{◌≡◌, [], OnOk, take};
ghost use Rattle.stl_rules.specs.Stages.{heading_breaks, is_address, symbols_behind};
ghost use Rattle.block_variables.specs.Firsts.{with_breaks};
ghost use Rattle.name_tables.specs.Before.{names_before, numbers_before};
ghost use Rattle.symbol_names.specs.inner.Kept.{line_breaks};

use block_variables::{note, note_if};
use instruction_operands::may_have;
use name_tables::{Numbers, Symbols};
use s7_base::{Break, Line, NoMemory, Reason};
use std::alloc::Global;
use stl_places::is_in_area;
use stl_tree::{BlockKind, SymbolAddress, SymbolLine};

/// Whether an address is one of its area, or a number of its kind.
pub fn is_address(address: SymbolAddress) -> bool
    ensures { result ≡ is_address address }
{
    match address {
        SymbolAddress::At(place) => is_in_area(place),
        SymbolAddress::Block(kind, number) => may_have(kind, number),
        SymbolAddress::Other => true,
    }
}

/// Notes the rules that a line of the symbol table breaks.
#[tactic(auto, using(block_variables::proofs::Firsts::behind))]
fn note_line(
    alloc: Global,
    symbols: &Symbols<'_>,
    place: usize,
    line: &SymbolLine,
    first: &mut Option<Break>,
) -> Result<(), NoMemory>
    ensures { OnOk result (first.new ≡ with_breaks first.old (line_breaks (names_before (take place symbols.now)) line.now)) }
{
    let repeated = symbols.is_repeated(alloc, place, line.name.as_slice())?;
    note_if(first, repeated, line.line, Reason::DuplicateName);
    note_if(
        first,
        !is_address(line.address),
        line.line,
        Reason::BadAddress,
    );
    Ok(())
}

/// Notes the rules that the symbol table breaks.
pub fn note_symbols(
    alloc: Global,
    symbols: &Symbols<'_>,
    lines: &[SymbolLine],
    first: &mut Option<Break>,
) -> Result<(), NoMemory>
    requires { symbols.now ≡ lines.now }
    ensures { OnOk result (first.new ≡ with_breaks first.old (symbols_behind [] lines.now)) }
{
    for place in 0..lines.len() {
        let line = &lines[place];
        note_line(alloc, symbols, place, line, first)?;
    }
    Ok(())
}

/// Notes the rules that the heading of a block breaks.
#[tactic(auto, using(block_variables::proofs::Firsts::behind))]
pub fn note_heading(
    kind: BlockKind,
    line: Line,
    numbers: &Numbers,
    place: usize,
    number: Result<u32, Reason>,
    first: &mut Option<Break>,
)
    ensures { first.new ≡ with_breaks first.old (heading_breaks kind line (numbers_before (take place numbers.now)) number) }
{
    match number {
        Ok(number) => {
            note_if(first, !may_have(kind, number), line, Reason::BadAddress);
            let repeated = numbers.is_repeated(kind, number, place);
            note_if(first, repeated, line, Reason::DuplicateBlock);
        }
        Err(reason) => note(first, line, reason),
    }
}
