//! Declarations.
ghost use Rattle.std.specs.Prelude.{◌≡◌, ◌+◌, ◌++◌, length, IfOk, OnOk};
ghost use Rattle.stl_grammar.specs.Declarations.{alone, array_at, array_with, before_of, begins_complex, bounds_at, closed_behind, closed_by, declaration_at, depth_of, dims_at, elementary_or, elementary_type, ends_level, in_array, instance_kind, is_user_type, left_of, left_out_type, levels_behind, one_word, one_word_at, opening_type, pointer_types, small_type, time_types, type_at, type_in, type_kind, upper_at, variable_kind, wide_type, with_array, with_initial};
ghost use Rattle.stl_grammar.specs.Initials.{ending_at};
ghost use Rattle.stl_statement_grammar.specs.Readers.{further, read_as};

use crate::initial::ending_at;
use crate::section::{end_of_section, is_formal, takes_dates};
use crate::words::{is_pointer_type, is_time_type};
use s7_base::{Kind, Line, List, NoMemory, Token, rest_after};
use std::alloc::Global;
use std::collections::LinkedList;
use stl_constants::{
    Next, begins_with_word, further, is_sign, is_word, is_word_kind, next_of, one_more,
};
use stl_grammar::{Innermost, Level, Section, Written};
use stl_places::{has_number, whole_at};
use stl_statement_grammar::Read;
use stl_tree::{BlockKind, ElemType, InitialItem};

fn with_lower(low: i64, high: Read<i64>) -> Read<(i64, i64)>
    ensures { result ≡ read_as (λ high. (low, high)) high }
{
    match high {
        Read::Fits(high, size) => Read::Fits((low, high), size),
        Read::LeftOut(kind) => Read::LeftOut(kind),
        Read::No => Read::No,
    }
}

/// The bounds of a dimension, given the lower one and the number of its tokens.
fn upper_at(low: i64, size: usize, tokens: &[Token]) -> Result<Read<(i64, i64)>, NoMemory>
    ensures { IfOk result (λ found. found ≡ upper_at low size tokens.now) }
{
    match tokens {
        [dots, rest @ ..] if is_sign(dots, "..") => {
            let before = size.checked_add(1).ok_or(NoMemory)?;
            further(before, with_lower(low, whole_at(rest)))
        }
        _ => Ok(Read::No),
    }
}

/// The bounds of a dimension.
fn bounds_at(tokens: &[Token]) -> Result<Read<(i64, i64)>, NoMemory>
    ensures { IfOk result (λ found. found ≡ bounds_at tokens.now) }
{
    match whole_at(tokens) {
        Read::Fits(low, size) => upper_at(low, size, rest_after(tokens, size)),
        Read::LeftOut(_) | Read::No => Ok(Read::No),
    }
}

/// The dimensions of an array, and their bracket.
fn dims_at(alloc: Global, tokens: &[Token]) -> Result<Read<List<(i64, i64)>>, NoMemory>
    ensures { IfOk result (λ found. found ≡ dims_at tokens.now) }
{
    let mut dims = List::new(alloc);
    let mut size = 0;
    let mut rest = tokens;
    while let [_, ..] = rest {
        match bounds_at(rest)? {
            Read::Fits(bounds, taken) => {
                dims.push(bounds)?;
                size = one_more(size, taken)?;
                match next_of("]", rest_after(rest, taken)) {
                    Next::End => return Ok(Read::Fits(dims, size)),
                    Next::More => rest = rest_after(rest_after(rest, 1), taken),
                    Next::Other => return Ok(Read::No),
                }
            }
            Read::LeftOut(kind) => return Ok(Read::LeftOut(kind)),
            Read::No => return Ok(Read::No),
        }
    }
    Ok(Read::No)
}

/// The dimensions of an array and `OF`.
fn array_at(alloc: Global, tokens: &[Token]) -> Result<Read<List<(i64, i64)>>, NoMemory>
    ensures { IfOk result (λ found. found ≡ array_at tokens.now) }
{
    match tokens {
        [first, rest @ ..] if is_sign(first, "[") => further(
            1,
            before_of(rest, dims_at(alloc, rest)?)?,
        ),
        _ => Ok(Read::No),
    }
}

/// The dimensions of an array, if `OF` follows them.
fn before_of(
    tokens: &[Token],
    read: Read<List<(i64, i64)>>,
) -> Result<Read<List<(i64, i64)>>, NoMemory>
    ensures { IfOk result (λ found. found ≡ before_of tokens.now read) }
{
    match read {
        Read::Fits(dims, size) => {
            if !begins_with_word("OF", rest_after(tokens, size)) {
                return Ok(Read::No);
            }
            let size = size.checked_add(1).ok_or(NoMemory)?;
            Ok(Read::Fits(dims, size))
        }
        Read::LeftOut(_) | Read::No => Ok(Read::No),
    }
}

/// An elementary type of one byte at most.
fn small_type(word: &Token) -> Option<ElemType>
    ensures { result ≡ small_type word.now }
{
    if is_word(word, "BOOL") {
        Some(ElemType::Bool)
    } else if is_word(word, "BYTE") {
        Some(ElemType::Byte)
    } else if is_word(word, "CHAR") {
        Some(ElemType::Char)
    } else {
        None
    }
}

/// An elementary type of a word or a double word.
fn wide_type(word: &Token) -> Option<ElemType>
    ensures { result ≡ wide_type word.now }
{
    if is_word(word, "WORD") {
        Some(ElemType::Word)
    } else if is_word(word, "INT") {
        Some(ElemType::Int)
    } else if is_word(word, "DWORD") {
        Some(ElemType::Dword)
    } else if is_word(word, "DINT") {
        Some(ElemType::Dint)
    } else {
        None
    }
}

/// An elementary type.
pub fn elementary_type(word: &Token) -> Option<ElemType>
    ensures { result ≡ elementary_type word.now }
{
    match small_type(word) {
        Some(ty) => Some(ty),
        None => wide_type(word),
    }
}

/// Whether the tokens are a user-defined type, by its number.
pub fn is_user_type(first: &Token, rest: &[Token]) -> bool
    ensures { result ≡ is_user_type first.now rest.now }
{
    has_number("UDT", first, rest)
}

/// The kind of a type that is not supported.
pub fn type_kind(first: &Token, rest: &[Token]) -> Option<Kind>
    ensures { result ≡ type_kind first.now rest.now }
{
    if is_word(first, "REAL") {
        Some(Kind::Real)
    } else if is_pointer_type(first) {
        Some(Kind::PointerType)
    } else if is_word(first, "STRING") {
        Some(Kind::StringType)
    } else if is_time_type(first) {
        Some(Kind::DateTime)
    } else if is_user_type(first, rest) {
        Some(Kind::UserType)
    } else {
        None
    }
}

/// The kind of an instance that is a variable: of a function block, or of a block of the system.
fn instance_kind(first: &Token, rest: &[Token]) -> Option<Kind>
    ensures { result ≡ instance_kind first.now rest.now }
{
    if has_number("FB", first, rest) {
        Some(Kind::MultiInstance)
    } else if has_number("SFB", first, rest) {
        Some(Kind::SystemCall)
    } else {
        None
    }
}

/// The kind of a variable's type that is not supported.
fn variable_kind(first: &Token, rest: &[Token]) -> Option<Kind>
    ensures { result ≡ variable_kind first.now rest.now }
{
    match type_kind(first, rest) {
        Some(kind) => Some(kind),
        None => instance_kind(first, rest),
    }
}

/// A type without arrays.
fn alone(alloc: Global, innermost: Innermost) -> Written
    ensures { result ≡ alone innermost }
{
    Written {
        arrays: LinkedList::new(alloc),
        innermost,
        initial: List::new(alloc),
    }
}

fn elementary_or(
    alloc: Global,
    elementary: Option<ElemType>,
    left_out: Option<Kind>,
) -> Read<Written>
    ensures { result ≡ elementary_or elementary left_out }
{
    match (elementary, left_out) {
        (Some(ty), _) => Read::Fits(alone(alloc, Innermost::Elementary(ty)), 1),
        (None, Some(kind)) => Read::LeftOut(kind),
        (None, None) => Read::No,
    }
}

/// The type of one word at a place, by its first token.
fn one_word(alloc: Global, first: &Token, rest: &[Token]) -> Read<Written>
    ensures { result ≡ one_word first.now rest.now }
{
    if is_word(first, "DATE_AND_TIME") {
        return Read::Fits(alone(alloc, Innermost::DateAndTime), 1);
    }
    elementary_or(alloc, elementary_type(first), variable_kind(first, rest))
}

fn one_word_at(alloc: Global, tokens: &[Token]) -> Read<Written>
    ensures { result ≡ one_word_at tokens.now }
{
    match tokens {
        [first, rest @ ..] => one_word(alloc, first, rest),
        [] => Read::No,
    }
}

/// An array of these dimensions, whose elements are of the type that was read.
fn with_array(dims: List<(i64, i64)>, read: Read<Written>) -> Result<Read<Written>, NoMemory>
    ensures { IfOk result (λ found. found ≡ read_as (with_array dims) read) }
{
    match read {
        Read::Fits(written, size) => {
            let mut written = written;
            written.arrays.push_front(dims)?;
            Ok(Read::Fits(written, size))
        }
        Read::LeftOut(kind) => Ok(Read::LeftOut(kind)),
        Read::No => Ok(Read::No),
    }
}

/// An array by its dimensions, the number of their tokens and its element type, with the word `ARRAY` before
/// them.
fn array_with(
    dims: List<(i64, i64)>,
    size: usize,
    element: Read<Written>,
) -> Result<Read<Written>, NoMemory>
    ensures { IfOk result (λ found. found ≡ further (size + 1) (read_as (with_array dims) element)) }
{
    let before = size.checked_add(1).ok_or(NoMemory)?;
    further(before, with_array(dims, element)?)
}

/// The type at a place where at most `left` levels may be opened.
fn type_at(alloc: Global, left: usize, tokens: &[Token]) -> Result<Read<Written>, NoMemory>
    ensures { IfOk result (λ found. found ≡ type_at left tokens.now) }
{
    if left == 0 {
        return Ok(one_word_at(alloc, tokens));
    }
    if begins_with_word("STRUCT", tokens) {
        return Ok(Read::Fits(alone(alloc, Innermost::Struct), 1));
    }
    if !begins_with_word("ARRAY", tokens) {
        return Ok(one_word_at(alloc, tokens));
    }
    let rest = rest_after(tokens, 1);
    match array_at(alloc, rest)? {
        Read::Fits(dims, size) => {
            let element = type_at(alloc, left - 1, rest_after(rest, size))?;
            array_with(dims, size, element)
        }
        Read::LeftOut(_) | Read::No => Ok(Read::No),
    }
}

/// A declaration with the initial values that were read.
fn with_initial(written: Written, read: Read<List<InitialItem>>) -> Read<Written>
    ensures { result ≡ read_as (with_initial written) read }
{
    match read {
        Read::Fits(items, size) => {
            let mut written = written;
            written.initial = items;
            Read::Fits(written, size)
        }
        Read::LeftOut(kind) => Read::LeftOut(kind),
        Read::No => Read::No,
    }
}

/// A declaration by its type, and what follows the type.
fn with_ending(
    alloc: Global,
    kind: BlockKind,
    section: Section,
    written: Written,
    size: usize,
    behind: &[Token],
) -> Result<Read<Written>, NoMemory>
    ensures { IfOk result (λ found. found ≡ further size (read_as (with_initial written) (ending_at kind section (in_array (length written.arrays)) behind.now))) }
{
    let in_array = written.arrays.len() > 0;
    let items = ending_at(alloc, kind, section, in_array, behind)?;
    further(size, with_initial(written, items))
}

/// A declaration by its type; one of a STRUCT has its members and its end after this.
fn closed_by(
    alloc: Global,
    kind: BlockKind,
    section: Section,
    written: Written,
    size: usize,
    behind: &[Token],
) -> Result<Read<Written>, NoMemory>
    ensures { IfOk result (λ found. found ≡ closed_by kind section written.innermost written size behind.now) }
{
    match written.innermost {
        Innermost::Struct => Ok(Read::Fits(written, size)),
        Innermost::DateAndTime if !takes_dates(section) => Ok(Read::LeftOut(Kind::DateTime)),
        Innermost::Elementary(_) | Innermost::DateAndTime => {
            with_ending(alloc, kind, section, written, size, behind)
        }
    }
}

fn closed_behind(
    alloc: Global,
    kind: BlockKind,
    section: Section,
    tokens: &[Token],
    read: Read<Written>,
) -> Result<Read<Written>, NoMemory>
    ensures { IfOk result (λ found. found ≡ closed_behind kind section tokens.now read) }
{
    match read {
        Read::Fits(written, size) => {
            closed_by(
                alloc,
                kind,
                section,
                written,
                size,
                rest_after(tokens, size),
            )
        }
        Read::LeftOut(left_out) => Ok(Read::LeftOut(left_out)),
        Read::No => Ok(Read::No),
    }
}

/// Whether the tokens begin with an ARRAY or a STRUCT.
fn begins_complex(tokens: &[Token]) -> bool
    ensures { result ≡ begins_complex tokens.now }
{
    begins_with_word("ARRAY", tokens) || begins_with_word("STRUCT", tokens)
}

/// The type of a declaration of a section: formals are elementary.
fn type_in(
    alloc: Global,
    section: Section,
    left: usize,
    tokens: &[Token],
) -> Result<Read<Written>, NoMemory>
    ensures { IfOk result (λ found. found ≡ type_in section left tokens.now) }
{
    if is_formal(section) && begins_complex(tokens) {
        return Ok(Read::LeftOut(Kind::ComplexParameter));
    }
    type_at(alloc, left, tokens)
}

/// The declaration of a section in a block of a kind, after its name, at a place where a number of levels may
/// be opened.
pub fn declaration_at(
    alloc: Global,
    kind: BlockKind,
    section: Section,
    left: usize,
    name: &Token,
    tokens: &[Token],
) -> Result<Read<Written>, NoMemory>
    ensures { IfOk result (λ found. found ≡ declaration_at kind section left name.now tokens.now) }
{
    match tokens {
        [colon, rest @ ..] if is_word_kind(name) && is_sign(colon, ":") => {
            let read = type_in(alloc, section, left, rest)?;
            further(1, closed_behind(alloc, kind, section, rest, read)?)
        }
        _ => Ok(Read::No),
    }
}

/// How many levels are open.
fn depth_of(levels: &LinkedList<Level>) -> usize
    ensures { result ≡ depth_of levels.now }
{
    match levels.front() {
        Some(level) => level.depth,
        None => 0,
    }
}

/// How many more levels may be opened, of eight.
pub fn left_of(levels: &LinkedList<Level>) -> usize
    ensures { result ≡ left_of levels.now }
{
    8usize.saturating_sub(depth_of(levels))
}

/// The levels that are open after a declaration on a line.
pub fn open_level(
    levels: &mut LinkedList<Level>,
    line: Line,
    innermost: Innermost,
    arrays: usize,
) -> Result<(), NoMemory>
    ensures { OnOk result (levels.new ≡ levels_behind levels.old line innermost arrays) }
{
    match innermost {
        Innermost::Struct => {
            let before = depth_of(levels).checked_add(arrays).ok_or(NoMemory)?;
            let depth = before.checked_add(1).ok_or(NoMemory)?;
            let in_array = arrays > 0;
            levels.push_front(Level {
                line,
                depth,
                in_array,
            })?;
            Ok(())
        }
        Innermost::Elementary(_) | Innermost::DateAndTime => Ok(()),
    }
}

/// Whether a token is the word that ends the innermost STRUCT, or the section.
pub fn ends_level(section: Section, levels: &LinkedList<Level>, first: &Token) -> bool
    ensures { result ≡ ends_level section levels.now first.now }
{
    match levels.front() {
        Some(_) => is_word(first, "END_STRUCT"),
        None => is_word(first, end_of_section(section)),
    }
}
