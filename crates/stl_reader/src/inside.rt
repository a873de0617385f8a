//! The items among the declarations of a block.
ghost use Rattle.std.specs.Prelude.{◌≡◌, ◌∷◌, IfOk};
ghost use Rattle.stl_grammar.specs.Items.{closing_at, declaration_found, declaration_item, inside_at, section_end_found, struct_found};

use crate::misfit::left_out_reason;
use s7_base::{Line, List, NoMemory, Reason, Token};
use std::alloc::Global;
use std::collections::LinkedList;
use stl_constants::begins_with_sign;
use stl_declarations::{declaration_at, ending_at, ends_level, left_of, open_level};
use stl_grammar::{Item, Level, NextItem, Section, Where, Written};
use stl_places::name_of;
use stl_statement_grammar::Read;
use stl_tree::{BlockKind, InitialItem};

/// The end of the innermost STRUCT, which is on a line, by what was read after its word.
fn struct_found(
    kind: BlockKind,
    section: Section,
    line: Line,
    levels: LinkedList<Level>,
    tokens: &[Token],
    read: Read<List<InitialItem>>,
) -> NextItem
    ensures { result ≡ struct_found kind section line levels tokens.now read }
{
    match read {
        Read::Fits(items, size) => {
            NextItem::Fits(
                Item::Closes(items),
                size,
                Where::Inside(kind, section, levels),
            )
        }
        Read::LeftOut(left) => NextItem::Misfit(line, left_out_reason(tokens, left)),
        Read::No => NextItem::Misfit(line, Reason::BadStatement),
    }
}

/// The end of a section, given its word and what follows it.
fn section_end_found(kind: BlockKind, section: Section, first: &Token, rest: &[Token]) -> NextItem
    ensures { result ≡ section_end_found kind section first.now rest.now }
{
    match section {
        Section::Own if begins_with_sign(";", rest) => {
            NextItem::Fits(Item::Mark, 1, Where::Behind(kind, section))
        }
        Section::Own => NextItem::Misfit(first.line, Reason::BadStatement),
        Section::Input | Section::Output | Section::InOut | Section::Static | Section::Temp => {
            NextItem::Fits(Item::Mark, 0, Where::Behind(kind, section))
        }
    }
}

/// The item at a place where the innermost STRUCT or the section ends with its word.
fn closing_at(
    alloc: Global,
    kind: BlockKind,
    section: Section,
    levels: LinkedList<Level>,
    tokens: &[Token],
    first: &Token,
    rest: &[Token],
) -> Result<NextItem, NoMemory>
    ensures { IfOk result (λ found. found ≡ closing_at kind section levels tokens.now first.now rest.now) }
{
    let mut levels = levels;
    match levels.pop_front() {
        Some(level) => {
            let read = ending_at(alloc, kind, section, level.in_array, rest)?;
            Ok(struct_found(kind, section, level.line, levels, tokens, read))
        }
        None => Ok(section_end_found(kind, section, first, rest)),
    }
}

/// A declaration of this many tokens after its name.
fn declaration_item(
    alloc: Global,
    kind: BlockKind,
    section: Section,
    levels: LinkedList<Level>,
    first: &Token,
    written: Written,
    size: usize,
) -> Result<NextItem, NoMemory>
    ensures { IfOk result (λ found. found ≡ declaration_item kind section levels first.now written size) }
{
    let mut levels = levels;
    open_level(
        &mut levels,
        first.line,
        written.innermost,
        written.arrays.len(),
    )?;
    let name = name_of(alloc, first)?;
    Ok(NextItem::Fits(
        Item::Declares(name, first.line, written),
        size,
        Where::Inside(kind, section, levels),
    ))
}

/// A declaration, by what was read.
fn declaration_found(
    alloc: Global,
    kind: BlockKind,
    section: Section,
    levels: LinkedList<Level>,
    tokens: &[Token],
    first: &Token,
    read: Read<Written>,
) -> Result<NextItem, NoMemory>
    ensures { IfOk result (λ found. found ≡ declaration_found kind section levels tokens.now first.now read) }
{
    match read {
        Read::Fits(written, size) => declaration_item(
            alloc, kind, section, levels, first, written, size,
        ),
        Read::LeftOut(left) => Ok(NextItem::Misfit(first.line, left_out_reason(tokens, left))),
        Read::No => Ok(NextItem::Misfit(first.line, Reason::BadStatement)),
    }
}

/// The item at a place among declarations.
pub fn inside_at(
    alloc: Global,
    kind: BlockKind,
    section: Section,
    levels: LinkedList<Level>,
    tokens: &[Token],
    first: &Token,
    rest: &[Token],
) -> Result<NextItem, NoMemory>
    ensures { IfOk result (λ found. found ≡ inside_at kind section levels tokens.now first.now rest.now) }
{
    if ends_level(section, &levels, first) {
        return closing_at(alloc, kind, section, levels, tokens, first, rest);
    }
    let read = declaration_at(alloc, kind, section, left_of(&levels), first, rest)?;
    declaration_found(alloc, kind, section, levels, tokens, first, read)
}
