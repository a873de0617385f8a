//! The symbol table.
ghost use Rattle.std.specs.Prelude.{◌≡◌, reverse, IfOk};
ghost use Rattle.std.specs.List.{prefix_len};
ghost use Rattle.s7_base.specs.Tokens.{is_blank};
ghost use Rattle.stl_grammar.specs.Items.{in_table, symbol_found, table_at};
ghost use Rattle.stl_grammar.specs.Symbols.{address_by, address_of, area_by, bit_address, bit_behind, bit_with, ends_line, ends_table, is_letter, is_next, kind_of, named_address, place_address, place_of, symbol_at, symbol_behind, symbol_line, trimmed_field, width_by};

use crate::heading::{is_behind, is_on};
use crate::misfit::heading_reason;
use digit_texts::{digits_size, kept_number};
use memory_areas::AreaName;
use s7_base::{Line, List, NoMemory, Reason, Token, Width, front_of, is_same_word, rest_after};
use std::alloc::Global;
use stl_constants::{is_quoted, is_sign, is_word};
use stl_grammar::{Item, NextItem, Where};
use stl_places::kind_word;
use stl_tree::{BlockKind, RawPlace, SymbolAddress, SymbolLine};

fn is_blank(b: u8) -> bool
    ensures { result ≡ is_blank b }
{
    matches!(b, b' ' | b'\t' | b'\r')
}

/// How many blanks a text begins with.
fn blanks_at(text: &[u8]) -> usize
    ensures { result ≡ prefix_len is_blank text.now }
{
    text.iter().take_while(|b| is_blank(**b)).count()
}

/// How many blanks a text ends with.
fn blanks_behind(text: &[u8]) -> usize
    ensures { result ≡ prefix_len is_blank (reverse text.now) }
{
    text.iter().rev().take_while(|b| is_blank(**b)).count()
}

/// A field without the blanks at its ends.
fn trimmed_field(field: &[u8]) -> &[u8]
    ensures { result.now ≡ trimmed_field field.now }
{
    let text = rest_after(field, blanks_at(field));
    front_of(text, text.len().saturating_sub(blanks_behind(text)))
}

fn is_letter(b: u8) -> bool
    ensures { result ≡ is_letter b }
{
    b.is_ascii_uppercase() || b.is_ascii_lowercase()
}

/// How many letters a text begins with.
fn letters_at(text: &[u8]) -> usize
    ensures { result ≡ prefix_len is_letter text.now }
{
    text.iter().take_while(|b| is_letter(**b)).count()
}

/// The kind of a block, by the letters before its number.
fn kind_of(letters: &[u8]) -> Option<BlockKind>
    ensures { result ≡ kind_of letters.now }
{
    if is_same_word(letters, kind_word(BlockKind::Ob)) {
        Some(BlockKind::Ob)
    } else if is_same_word(letters, kind_word(BlockKind::Fc)) {
        Some(BlockKind::Fc)
    } else if is_same_word(letters, kind_word(BlockKind::Fb)) {
        Some(BlockKind::Fb)
    } else if is_same_word(letters, kind_word(BlockKind::Db)) {
        Some(BlockKind::Db)
    } else {
        None
    }
}

/// The area of an address, by its letter.
fn area_by(letter: u8) -> Option<AreaName>
    ensures { result ≡ area_by letter }
{
    match letter {
        b'I' => Some(AreaName::I),
        b'Q' => Some(AreaName::Q),
        b'M' => Some(AreaName::M),
        _ => None,
    }
}

/// The width of an address, by the letters after that of the area.
fn width_by(letters: &[u8]) -> Option<Width>
    ensures { result ≡ width_by letters.now }
{
    if letters.is_empty() {
        Some(Width::Bit)
    } else if is_same_word(letters, "B") {
        Some(Width::Byte)
    } else if is_same_word(letters, "W") {
        Some(Width::Word)
    } else if is_same_word(letters, "D") {
        Some(Width::Dword)
    } else {
        None
    }
}

fn place_of(area: AreaName, width: Width, byte: u32, bit: u32) -> SymbolAddress
    ensures { result ≡ place_of area width byte bit }
{
    SymbolAddress::At(RawPlace {
        block: None,
        area,
        width,
        byte,
        bit,
    })
}

/// The number of a bit after a point.
fn bit_behind(text: &[u8]) -> Option<u32>
    ensures { result ≡ bit_behind text.now }
{
    match text {
        [b'.', digits @ ..] => kept_number(digits),
        _ => None,
    }
}

/// The address of a bit, by its byte and what follows it.
fn bit_with(area: AreaName, rest: &[u8], byte: Option<u32>) -> Option<SymbolAddress>
    ensures { result ≡ bit_with area rest.now byte }
{
    match byte {
        Some(byte) => bit_behind(rest).map(|bit| place_of(area, Width::Bit, byte, bit)),
        None => None,
    }
}

/// The address of a bit, by its area and what follows the letter of the area.
fn bit_address(area: AreaName, text: &[u8]) -> Option<SymbolAddress>
    ensures { result ≡ bit_address area text.now }
{
    let size = digits_size(text);
    bit_with(
        area,
        rest_after(text, size),
        kept_number(front_of(text, size)),
    )
}

/// The address of a place, by its area, its width, and what follows their letters.
fn place_address(area: Option<AreaName>, width: Option<Width>, text: &[u8]) -> Option<SymbolAddress>
    ensures { result ≡ place_address area width text.now }
{
    match (area, width) {
        (Some(area), Some(Width::Bit)) => bit_address(area, text),
        (Some(area), Some(width)) => kept_number(text).map(|byte| place_of(area, width, byte, 0)),
        _ => None,
    }
}

/// An address that is no block, by its letters and what follows them.
fn address_by(letters: &[u8], text: &[u8]) -> Option<SymbolAddress>
    ensures { result ≡ address_by letters.now text.now }
{
    match letters {
        [letter, more @ ..] => place_address(
            area_by(letter.to_ascii_uppercase()),
            width_by(more),
            text,
        ),
        [] => None,
    }
}

/// An address by its letters and what follows them, where the letters may be those of a kind of blocks.
fn named_address(kind: Option<BlockKind>, letters: &[u8], text: &[u8]) -> Option<SymbolAddress>
    ensures { result ≡ named_address kind letters.now text.now }
{
    match kind {
        Some(kind) => kept_number(text).map(|number| SymbolAddress::Block(kind, number)),
        None => address_by(letters, text),
    }
}

/// The address that a field gives.
fn address_of(field: &[u8]) -> SymbolAddress
    ensures { result ≡ address_of field.now }
{
    let size = letters_at(field);
    let letters = front_of(field, size);
    let rest = rest_after(field, size);
    let text = rest_after(rest, blanks_at(rest));
    match named_address(kind_of(letters), letters, text) {
        Some(address) => address,
        None => SymbolAddress::Other,
    }
}

/// Whether a comma and a field follow on the line.
fn is_next(line: Line, comma: &Token, field: &Token) -> bool
    ensures { result ≡ is_next line comma.now field.now }
{
    is_sign(comma, ",") && is_on(line, comma) && is_quoted(field) && is_on(line, field)
}

/// A line of the table, by its fields.
fn symbol_line(alloc: Global, name: &Token, address: &Token) -> Result<SymbolLine, NoMemory>
    ensures { IfOk result (λ line. line ≡ symbol_line name.now address.now) }
{
    Ok(SymbolLine {
        name: List::from_vec(Vec::from_slice(alloc, trimmed_field(name.text.as_slice()))?),
        line: name.line,
        address: address_of(trimmed_field(address.text.as_slice())),
    })
}

/// Four fields with commas between them, on one line.
fn symbol_at(alloc: Global, name: &Token, rest: &[Token]) -> Result<Option<SymbolLine>, NoMemory>
    ensures { IfOk result (λ found. found ≡ symbol_at name.now rest.now) }
{
    let [a, address, b, kind, c, comment, ..] = rest else {
        return Ok(None);
    };
    let line = name.line;
    if is_quoted(name)
        && is_next(line, a, address)
        && is_next(line, b, kind)
        && is_next(line, c, comment)
    {
        return Ok(Some(symbol_line(alloc, name, address)?));
    }
    Ok(None)
}

/// A line of the table after another line.
fn symbol_behind(
    alloc: Global,
    line: Line,
    first: &Token,
    rest: &[Token],
) -> Result<Option<SymbolLine>, NoMemory>
    ensures { IfOk result (λ found. found ≡ symbol_behind line first.now rest.now) }
{
    if is_behind(line, first) {
        symbol_at(alloc, first, rest)
    } else {
        Ok(None)
    }
}

fn ends_line(line: Line, tokens: &[Token]) -> bool
    ensures { result ≡ ends_line line tokens.now }
{
    match tokens {
        [next, ..] => is_behind(line, next),
        [] => true,
    }
}

/// Whether the end word of the table is on a line of its own here.
fn ends_table(line: Line, first: &Token, rest: &[Token]) -> bool
    ensures { result ≡ ends_table line first.now rest.now }
{
    is_behind(line, first) && is_word(first, "END_SYMBOL_TABLE") && ends_line(first.line, rest)
}

/// The symbol table, where one may open before the first block.
pub fn table_at(tokens: &[Token], first: &Token) -> NextItem
    ensures { result ≡ table_at tokens.now first.now }
{
    if is_word(first, "SYMBOL_TABLE") {
        NextItem::Fits(Item::Mark, 0, Where::Table(first.line))
    } else {
        NextItem::Misfit(first.line, heading_reason(tokens))
    }
}

fn symbol_found(first: &Token, found: Option<SymbolLine>) -> NextItem
    ensures { result ≡ symbol_found first.now found }
{
    match found {
        Some(symbol) => NextItem::Fits(Item::Symbol(symbol), 6, Where::Table(first.line)),
        None => NextItem::Misfit(first.line, Reason::BadStatement),
    }
}

/// The item in the symbol table after a line.
pub fn in_table(
    alloc: Global,
    line: Line,
    first: &Token,
    rest: &[Token],
) -> Result<NextItem, NoMemory>
    ensures { IfOk result (λ found. found ≡ in_table line first.now rest.now) }
{
    if ends_table(line, first, rest) {
        return Ok(NextItem::Fits(Item::Mark, 0, Where::Between));
    }
    let symbol = symbol_behind(alloc, line, first, rest)?;
    Ok(symbol_found(first, symbol))
}
