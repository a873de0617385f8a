//! Headings of blocks, and the lines after them that are skipped.
ghost use Rattle.std.specs.Prelude.{◌≡◌, ◌-◌, ◌≤◌, length, None, IfOk};
ghost use Rattle.stl_grammar.specs.Items.{heading_at, is_data};
ghost use Rattle.stl_grammar.specs.Headings.{line_of, heading_kind, block_heading, result_or, result_kind, result_read, result_at, result_behind, function_at, function_heading, opened_by, is_behind, is_on, size_on, has_colon, is_skipped};
ghost use Rattle.stl_statement_grammar.specs.Readers.{IsWithin, further, read_as};

use crate::words::{is_attribute, is_title};
use s7_base::{Kind, Line, NoMemory, Reason, Token, rest_after};
use std::alloc::Global;
use stl_constants::{is_sign, is_word};
use stl_declarations::{elementary_type, type_kind};
use stl_grammar::{Item, NextItem, Where};
use stl_places::{kind_word, name_at};
use stl_statement_grammar::Read;
use stl_tree::{BlockKind, ElemType, RawName};

/// Whether a block of this kind is a data block.
pub fn is_data(kind: BlockKind) -> bool
    ensures { result ≡ is_data kind }
{
    matches!(kind, BlockKind::Db)
}

/// The kind of a block without a type, by the first word of its heading.
fn heading_kind(first: &Token) -> Option<BlockKind>
    ensures { result ≡ heading_kind first.now }
{
    if is_word(first, "ORGANIZATION_BLOCK") {
        Some(BlockKind::Ob)
    } else if is_word(first, "FUNCTION_BLOCK") {
        Some(BlockKind::Fb)
    } else if is_word(first, "DATA_BLOCK") {
        Some(BlockKind::Db)
    } else {
        None
    }
}

/// The line of the token at the front, or else this one.
fn line_of(line: Line, tokens: &[Token]) -> Line
    ensures { result ≡ line_of line tokens.now }
{
    match tokens {
        [first, ..] => first.line,
        [] => line,
    }
}

/// The heading of a block by its name.
fn block_heading(kind: BlockKind, first: &Token, rest: &[Token], name: Read<RawName>) -> NextItem
    ensures { result ≡ block_heading kind first.now rest.now name }
{
    match name {
        Read::Fits(name, size) => {
            let line = line_of(first.line, rest_after(rest, size.saturating_sub(1)));
            NextItem::Fits(
                Item::Opens(first.line, kind, name, None),
                size,
                Where::Heading(kind, line),
            )
        }
        Read::LeftOut(_) | Read::No => NextItem::Misfit(first.line, Reason::BadStatement),
    }
}

/// The type of a function's result, by its elementary type where it has one: none for `VOID`.
fn result_or(elementary: Option<ElemType>, word: &Token) -> Option<Option<ElemType>>
    ensures { result ≡ result_or elementary word.now }
{
    match elementary {
        Some(ty) => Some(Some(ty)),
        None if is_word(word, "VOID") => Some(None),
        None => None,
    }
}

/// The kind of a function's type that is not supported.
fn result_kind(word: &Token, rest: &[Token]) -> Option<Kind>
    ensures { result ≡ result_kind word.now rest.now }
{
    if is_word(word, "DATE_AND_TIME") {
        Some(Kind::DateTime)
    } else {
        type_kind(word, rest)
    }
}

fn result_read(found: Option<Option<ElemType>>, left_out: Option<Kind>) -> Read<Option<ElemType>>
    ensures value { result ≡ result_read found left_out }
    ensures within { IsWithin 1 result }
{
    match (found, left_out) {
        (Some(ty), _) => Read::Fits(ty, 1),
        (None, Some(kind)) => Read::LeftOut(kind),
        (None, None) => Read::No,
    }
}

/// The type of a function's result.
fn result_at(tokens: &[Token]) -> Read<Option<ElemType>>
    ensures value { result ≡ result_at tokens.now }
    ensures within { IsWithin 1 result }
{
    match tokens {
        [word, rest @ ..] => result_read(
            result_or(elementary_type(word), word),
            result_kind(word, rest),
        ),
        [] => Read::No,
    }
}

/// A colon and the type of a function's result.
fn result_behind(tokens: &[Token]) -> Read<Option<ElemType>>
    ensures value { result ≡ result_behind tokens.now }
    ensures within { IsWithin 2 result }
{
    match tokens {
        [colon, rest @ ..] if is_sign(colon, ":") => match result_at(rest) {
            Read::Fits(ty, size) => Read::Fits(ty, size + 1),
            Read::LeftOut(kind) => Read::LeftOut(kind),
            Read::No => Read::No,
        },
        _ => Read::No,
    }
}

/// The heading of a function by its name, the number of its tokens and the type of its result.
fn function_with(
    first: &Token,
    rest: &[Token],
    name: RawName,
    size: usize,
    read: Read<Option<ElemType>>,
) -> NextItem
    requires few { size ≤ 2 }
    requires within { IsWithin 2 read }
    ensures { result ≡ function_heading first.now rest.now (further size (read_as (λ type. (name, type)) read)) }
{
    match read {
        Read::Fits(ty, more) => {
            let line = line_of(
                first.line,
                rest_after(rest, (size + more).saturating_sub(1)),
            );
            NextItem::Fits(
                Item::Opens(first.line, BlockKind::Fc, name, ty),
                size + more,
                Where::Heading(BlockKind::Fc, line),
            )
        }
        Read::LeftOut(kind) => NextItem::Misfit(first.line, Reason::Unsupported(kind)),
        Read::No => NextItem::Misfit(first.line, Reason::BadStatement),
    }
}

/// The heading of a function.
fn function_heading(alloc: Global, first: &Token, rest: &[Token]) -> Result<NextItem, NoMemory>
    ensures { IfOk result (λ found. found ≡ function_heading first.now rest.now (function_at rest.now)) }
{
    match name_at(alloc, "FC", rest)? {
        Read::Fits(name, size) => {
            let read = result_behind(rest_after(rest, size));
            Ok(function_with(first, rest, name, size, read))
        }
        Read::LeftOut(kind) => Ok(NextItem::Misfit(first.line, Reason::Unsupported(kind))),
        Read::No => Ok(NextItem::Misfit(first.line, Reason::BadStatement)),
    }
}

/// The heading of a function, at a place where another item may come too.
fn function_or(
    alloc: Global,
    other: NextItem,
    first: &Token,
    rest: &[Token],
) -> Result<NextItem, NoMemory>
    ensures { IfOk result (λ found. found ≡ opened_by None other first.now rest.now) }
{
    if is_word(first, "FUNCTION") {
        // Given up first: what is owned at a `?` costs the prover.
        drop(other);
        function_heading(alloc, first, rest)
    } else {
        Ok(other)
    }
}

/// The heading at a place where another item may come too.
pub fn heading_at(
    alloc: Global,
    other: NextItem,
    first: &Token,
    rest: &[Token],
) -> Result<NextItem, NoMemory>
    ensures { IfOk result (λ found. found ≡ heading_at other first.now rest.now) }
{
    match heading_kind(first) {
        Some(kind) => {
            drop(other);
            let name = name_at(alloc, kind_word(kind), rest)?;
            Ok(block_heading(kind, first, rest, name))
        }
        None => function_or(alloc, other, first, rest),
    }
}

pub fn is_behind(line: Line, token: &Token) -> bool
    ensures { result ≡ is_behind line token.now }
{
    line.0 < token.line.0
}

pub fn is_on(line: Line, token: &Token) -> bool
    ensures { result ≡ is_on line token.now }
{
    token.line.0 == line.0
}

/// How many tokens at the front are on the line.
pub fn size_on(line: Line, tokens: &[Token]) -> usize
    ensures size { result ≡ size_on line tokens.now }
    ensures within { result ≤ length tokens.now }
{
    tokens.iter().take_while(|token| is_on(line, token)).count()
}

fn has_colon(line: Line, tokens: &[Token]) -> bool
    ensures { result ≡ has_colon line tokens.now }
{
    match tokens {
        [colon, ..] => is_sign(colon, ":") && is_on(line, colon),
        [] => false,
    }
}

/// Whether a line begins here that is skipped, after another line.
pub fn is_skipped(line: Line, first: &Token, rest: &[Token]) -> bool
    ensures { result ≡ is_skipped line first.now rest.now }
{
    is_behind(line, first)
        && ((is_title(first) && has_colon(first.line, rest)) || is_attribute(first))
}
