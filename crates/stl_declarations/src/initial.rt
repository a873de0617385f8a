//! Initial values.
ghost use Rattle.std.specs.Prelude.{◌≡◌, ◌++◌, IfOk};
ghost use Rattle.stl_grammar.specs.Initials.{alone, closed_value, count_of, ending_at, group_behind, initial, initial_at, initial_behind, item_of_list, last_value, list_at, once, path_value_at, pointer_of, pointer_value, times, value_at, values_at};
ghost use Rattle.stl_statement_grammar.specs.Constants.{constant_at};
ghost use Rattle.stl_statement_grammar.specs.Pointers.{pointer_at};
ghost use Rattle.stl_statement_grammar.specs.Readers.{further, or_else, read_as};

use crate::section::takes_values;
use digit_texts::number_up_to;
use s7_base::{Line, List, NoMemory, Token, Width, rest_after};
use std::alloc::Global;
use stl_constants::{
    Next, begins_with_sign, constant_at, fitting, further, is_sign, is_word_kind, next_of,
    one_more, truth_at,
};
use stl_grammar::Section;
use stl_places::{path_at, pointer_at, pointer_value};
use stl_statement_grammar::Read;
use stl_tree::{BlockKind, Constant, InitialItem, PathStep, RawInitial, RawPointer};

/// A pointer, where its byte and its bit are ones that pointers have.
fn pointer(written: RawPointer) -> Option<Constant>
    ensures { result ≡ pointer_value written }
{
    Some(Constant {
        width: Width::Dword,
        signed: false,
        binary: false,
        value: pointer_value(written)?,
    })
}

fn pointer_constant_at(tokens: &[Token]) -> Read<Constant>
    ensures { result ≡ pointer_of (pointer_at tokens.now) }
{
    match pointer_at(tokens) {
        Read::Fits(written, size) => fitting(size, pointer(written)),
        Read::LeftOut(_) | Read::No => Read::No,
    }
}

fn constant_or_pointer_at(tokens: &[Token]) -> Read<Constant>
    ensures { result ≡ or_else (constant_at tokens.now) (pointer_of (pointer_at tokens.now)) }
{
    match constant_at(tokens) {
        Read::No => pointer_constant_at(tokens),
        read => read,
    }
}

/// The initial value at a place.
fn value_at(tokens: &[Token]) -> Read<Constant>
    ensures { result ≡ value_at tokens.now }
{
    match truth_at(tokens) {
        Read::No => constant_or_pointer_at(tokens),
        read => read,
    }
}

/// Values and the bracket after them.
fn values_at(alloc: Global, tokens: &[Token]) -> Result<Read<List<Constant>>, NoMemory>
    ensures { IfOk result (λ read. read ≡ values_at tokens.now) }
{
    let mut values = List::new(alloc);
    let mut size = 0;
    let mut rest = tokens;
    while let [_, ..] = rest {
        match value_at(rest) {
            Read::Fits(value, taken) => {
                values.push(value)?;
                size = one_more(size, taken)?;
                match next_of(")", rest_after(rest, taken)) {
                    Next::End => return Ok(Read::Fits(values, size)),
                    Next::More => rest = rest_after(rest_after(rest, 1), taken),
                    Next::Other => return Ok(Read::No),
                }
            }
            Read::LeftOut(kind) => return Ok(Read::LeftOut(kind)),
            Read::No => return Ok(Read::No),
        }
    }
    Ok(Read::No)
}

/// The count of values in brackets.
fn count_of(word: &Token) -> Option<u32>
    ensures { result ≡ count_of word.now }
{
    if !is_word_kind(word) {
        return None;
    }
    match number_up_to(65_535, word.text.as_slice()) {
        Some(count) if count > 0 => Some(count as u32),
        _ => None,
    }
}

fn repetition(count: u32, read: Read<List<Constant>>) -> Read<InitialItem>
    ensures { result ≡ read_as (times count) read }
{
    match read {
        Read::Fits(values, size) => Read::Fits(InitialItem { count, values }, size),
        Read::LeftOut(kind) => Read::LeftOut(kind),
        Read::No => Read::No,
    }
}

/// Values after their count and their bracket.
fn group_behind(
    alloc: Global,
    count: Option<u32>,
    tokens: &[Token],
) -> Result<Read<InitialItem>, NoMemory>
    ensures { IfOk result (λ read. read ≡ group_behind count tokens.now) }
{
    match count {
        Some(count) => Ok(repetition(count, values_at(alloc, tokens)?)),
        None => Ok(Read::No),
    }
}

/// A value without a count.
fn once(alloc: Global, value: Constant) -> Result<InitialItem, NoMemory>
    ensures { IfOk result (λ item. item ≡ once value) }
{
    let mut values = List::new(alloc);
    values.push(value)?;
    Ok(InitialItem { count: 1, values })
}

fn single_at(alloc: Global, tokens: &[Token]) -> Result<Read<InitialItem>, NoMemory>
    ensures { IfOk result (λ read. read ≡ read_as once (value_at tokens.now)) }
{
    match value_at(tokens) {
        Read::Fits(value, size) => Ok(Read::Fits(once(alloc, value)?, size)),
        Read::LeftOut(kind) => Ok(Read::LeftOut(kind)),
        Read::No => Ok(Read::No),
    }
}

/// A value, or values in brackets.
fn item_of_list(alloc: Global, tokens: &[Token]) -> Result<Read<InitialItem>, NoMemory>
    ensures { IfOk result (λ read. read ≡ item_of_list tokens.now) }
{
    match tokens {
        [first, rest @ ..] if begins_with_sign("(", rest) => {
            let group = group_behind(alloc, count_of(first), rest_after(rest, 1))?;
            further(2, group)
        }
        [_, ..] => single_at(alloc, tokens),
        [] => Ok(Read::No),
    }
}

/// A list and `;`.
fn list_at(alloc: Global, tokens: &[Token]) -> Result<Read<List<InitialItem>>, NoMemory>
    ensures { IfOk result (λ read. read ≡ list_at tokens.now) }
{
    let mut items = List::new(alloc);
    let mut size = 0;
    let mut rest = tokens;
    while let [_, ..] = rest {
        match item_of_list(alloc, rest)? {
            Read::Fits(item, taken) => {
                items.push(item)?;
                size = one_more(size, taken)?;
                match next_of(";", rest_after(rest, taken)) {
                    Next::End => return Ok(Read::Fits(items, size)),
                    Next::More => rest = rest_after(rest_after(rest, 1), taken),
                    Next::Other => return Ok(Read::No),
                }
            }
            Read::LeftOut(kind) => return Ok(Read::LeftOut(kind)),
            Read::No => return Ok(Read::No),
        }
    }
    Ok(Read::No)
}

fn closed_value(value: Constant, tokens: &[Token]) -> Read<Constant>
    ensures { result ≡ closed_value value tokens.now }
{
    if begins_with_sign(";", tokens) {
        Read::Fits(value, 1)
    } else {
        Read::No
    }
}

/// A value and `;`.
fn last_value(tokens: &[Token]) -> Result<Read<Constant>, NoMemory>
    ensures { IfOk result (λ read. read ≡ last_value tokens.now) }
{
    match value_at(tokens) {
        Read::Fits(value, size) => further(size, closed_value(value, rest_after(tokens, size))),
        Read::LeftOut(kind) => Ok(Read::LeftOut(kind)),
        Read::No => Ok(Read::No),
    }
}

fn alone(alloc: Global, value: Constant) -> Result<List<InitialItem>, NoMemory>
    ensures { IfOk result (λ items. items ≡ alone value) }
{
    let mut items = List::new(alloc);
    items.push(once(alloc, value)?)?;
    Ok(items)
}

fn alone_at(alloc: Global, tokens: &[Token]) -> Result<Read<List<InitialItem>>, NoMemory>
    ensures { IfOk result (λ read. read ≡ read_as alone (last_value tokens.now)) }
{
    match last_value(tokens)? {
        Read::Fits(value, size) => Ok(Read::Fits(alone(alloc, value)?, size)),
        Read::LeftOut(kind) => Ok(Read::LeftOut(kind)),
        Read::No => Ok(Read::No),
    }
}

/// The initial value of a declaration and `;`: a list where its type is an array.
fn initial_at(
    alloc: Global,
    in_array: bool,
    tokens: &[Token],
) -> Result<Read<List<InitialItem>>, NoMemory>
    ensures { IfOk result (λ read. read ≡ initial_at in_array tokens.now) }
{
    if in_array {
        list_at(alloc, tokens)
    } else {
        alone_at(alloc, tokens)
    }
}

/// What ends a declaration of a section in a block of a kind: `;`, and where it may have one, `:=` and an
/// initial value before it.
pub fn ending_at(
    alloc: Global,
    kind: BlockKind,
    section: Section,
    in_array: bool,
    tokens: &[Token],
) -> Result<Read<List<InitialItem>>, NoMemory>
    ensures { IfOk result (λ read. read ≡ ending_at kind section in_array tokens.now) }
{
    match tokens {
        [sign, ..] if is_sign(sign, ";") => Ok(Read::Fits(List::new(alloc), 1)),
        [sign, rest @ ..] if takes_values(kind, section) && is_sign(sign, ":=") => {
            further(1, initial_at(alloc, in_array, rest)?)
        }
        _ => Ok(Read::No),
    }
}

fn at_path(line: Line, path: List<PathStep>, read: Read<Constant>) -> Read<RawInitial>
    ensures { result ≡ read_as (initial line path) read }
{
    match read {
        Read::Fits(value, size) => Read::Fits(RawInitial { path, line, value }, size),
        Read::LeftOut(kind) => Read::LeftOut(kind),
        Read::No => Read::No,
    }
}

/// What follows a path in the body of a data block: `:=` and an initial value.
fn initial_behind(
    line: Line,
    path: List<PathStep>,
    tokens: &[Token],
) -> Result<Read<RawInitial>, NoMemory>
    ensures { IfOk result (λ read. read ≡ initial_behind line path tokens.now) }
{
    match tokens {
        [sign, rest @ ..] if is_sign(sign, ":=") => {
            further(1, at_path(line, path, last_value(rest)?))
        }
        _ => Ok(Read::No),
    }
}

/// An initial value of a data block, by its path.
pub fn path_value_at(
    alloc: Global,
    line: Line,
    tokens: &[Token],
) -> Result<Read<RawInitial>, NoMemory>
    ensures { IfOk result (λ read. read ≡ path_value_at line tokens.now) }
{
    match path_at(alloc, tokens)? {
        Read::Fits(path, size) => {
            further(size, initial_behind(line, path, rest_after(tokens, size))?)
        }
        Read::LeftOut(kind) => Ok(Read::LeftOut(kind)),
        Read::No => Ok(Read::No),
    }
}
