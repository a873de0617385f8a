//! Reads the operand of `OPN`.
ghost use Rattle.std.specs.Prelude.{◌≡◌, IfOk};
ghost use Rattle.s7_base.specs.declared.word.Width.TheVariants as width;
ghost use Rattle.stl_statement_grammar.specs.Places.{opened_area};
ghost use Rattle.stl_statement_grammar.specs.Pointers.{memory_at};
ghost use Rattle.stl_statement_grammar.specs.Readers.{IsWithin, or_else};
ghost use Rattle.stl_statement_grammar.specs.Statements.{opened_at, opened_behind, opened_by_memory_at, opened_name_at, opened_number_at, opened_word, opening, opening_by};

use memory_areas::AreaName;
use s7_base::{NoMemory, Token, Width, is_same_word};
use std::alloc::Global;
use stl_constants::{is_quoted, is_sign, is_word_kind};
use stl_places::{further, memory_at, name_of, numbered_at};
use stl_statement_grammar::Read;
use stl_tree::{RawName, RawOperand, RawPlace};

/// The area that `DB` or `DI` opens.
fn opened_area(letters: &[u8]) -> Option<AreaName>
    ensures { result ≡ opened_area letters.now }
{
    if is_same_word(letters, "DB") {
        Some(AreaName::Db)
    } else if is_same_word(letters, "DI") {
        Some(AreaName::Di)
    } else {
        None
    }
}

fn opening(area: AreaName, name: RawName) -> RawOperand
    ensures { result ≡ opening area name }
{
    match area {
        AreaName::Di => RawOperand::OpenDi(name),
        AreaName::I | AreaName::Q | AreaName::M | AreaName::L | AreaName::Db => {
            RawOperand::OpenDb(name)
        }
    }
}

/// A data block by its number.
fn opened_number_at(tokens: &[Token]) -> Read<RawOperand>
    ensures { result ≡ opened_number_at tokens.now }
{
    match numbered_at(tokens) {
        Read::Fits(found, size) => match opened_area(found.letters) {
            Some(area) => Read::Fits(opening(area, RawName::Number(found.number)), size),
            None => Read::No,
        },
        Read::LeftOut(kind) => Read::LeftOut(kind),
        Read::No => Read::No,
    }
}

/// The area that is opened, by its word.
fn opened_word(word: &Token) -> Option<AreaName>
    ensures { result ≡ opened_word word.now }
{
    if is_word_kind(word) {
        opened_area(word.text.as_slice())
    } else {
        None
    }
}

/// A data block by its name, after its word.
fn opened_behind(alloc: Global, word: &Token, rest: &[Token]) -> Result<Read<RawOperand>, NoMemory>
    ensures { IfOk result (λ read. read ≡ opened_behind (opened_word word.now) rest.now) }
{
    match (opened_word(word), rest) {
        (Some(area), [name, ..]) if is_quoted(name) => {
            let name = RawName::Name(name_of(alloc, name)?);
            Ok(Read::Fits(opening(area, name), 2))
        }
        _ => Ok(Read::No),
    }
}

/// A data block by its name, after its word or alone.
fn opened_name_at(alloc: Global, tokens: &[Token]) -> Result<Read<RawOperand>, NoMemory>
    ensures { IfOk result (λ read. read ≡ opened_name_at tokens.now) }
{
    match tokens {
        [first, ..] if is_quoted(first) => {
            let name = RawName::Name(name_of(alloc, first)?);
            Ok(Read::Fits(RawOperand::OpenDb(name), 1))
        }
        [first, rest @ ..] => opened_behind(alloc, first, rest),
        [] => Ok(Read::No),
    }
}

fn opening_by(area: AreaName, place: RawPlace) -> RawOperand
    ensures { result ≡ opening_by area place }
{
    match area {
        AreaName::Di => RawOperand::OpenDiBy(place),
        AreaName::I | AreaName::Q | AreaName::M | AreaName::L | AreaName::Db => {
            RawOperand::OpenDbBy(place)
        }
    }
}

/// The word in a bracket that has the number of a data block.
fn opened_word_at(area: AreaName, tokens: &[Token]) -> Read<RawOperand>
    ensures value { result ≡ memory_at (opening_by area) width.Word tokens.now }
    ensures within { IsWithin 8 result }
{
    match memory_at(Width::Word, tokens) {
        Read::Fits(place, size) => Read::Fits(opening_by(area, place), size),
        Read::LeftOut(kind) => Read::LeftOut(kind),
        Read::No => Read::No,
    }
}

/// A data block by its number in memory: `DB [MW 4]`.
fn opened_by_memory_at(tokens: &[Token]) -> Read<RawOperand>
    ensures { result ≡ opened_by_memory_at tokens.now }
{
    match tokens {
        [word, before, rest @ ..] if is_sign(before, "[") => match opened_word(word) {
            Some(area) => further(2, opened_word_at(area, rest)),
            None => Read::No,
        },
        _ => Read::No,
    }
}

fn opened_otherwise(alloc: Global, tokens: &[Token]) -> Result<Read<RawOperand>, NoMemory>
    ensures { IfOk result (λ read. read ≡ or_else (opened_name_at tokens.now) (opened_by_memory_at tokens.now)) }
{
    match opened_name_at(alloc, tokens)? {
        Read::No => Ok(opened_by_memory_at(tokens)),
        read => Ok(read),
    }
}

/// The operand of `OPN`.
pub fn opened_at(alloc: Global, tokens: &[Token]) -> Result<Read<RawOperand>, NoMemory>
    ensures { IfOk result (λ read. read ≡ opened_at tokens.now) }
{
    match opened_number_at(tokens) {
        Read::No => opened_otherwise(alloc, tokens),
        read => Ok(read),
    }
}
