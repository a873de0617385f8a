//! The item at a place of a text.
ghost use Rattle.std.specs.Prelude.{◌≡◌, [], take, None, IfOk};
ghost use Rattle.stl_grammar.specs.Items.{is_complete, statement_at, statement_size, begins_body, behind_at, behind_heading, behind_reason, instance_found, instance_or, body_of, cut_line, section_found, is_skipped_alone, statement_found, statement_from, body_at, at_end, at_token, item_at};
ghost use Rattle.stl_grammar.specs.Sections.{section_at};
ghost use Rattle.stl_statement_grammar.specs.Statements.{instruction_of};
ghost use Rattle.stl_grammar.specs.declared.item.Where.TheVariants.{Body};
ghost use Rattle.stl_reader.specs.inner.Finding.{HasFirst};

use crate::heading::{heading_at, is_data, is_skipped, size_on};
use crate::inside::inside_at;
use crate::misfit::{data_reason, heading_reason, is_semicolon, statement_size};
use crate::symbol::{in_table, table_at};
use crate::values::{is_end, values_at};
use s7_base::{Line, NoMemory, Reason, Rejection, Token, front_of};
use std::alloc::Global;
use std::collections::LinkedList;
use stl_constants::is_word;
use stl_declarations::section_at;
use stl_grammar::{Item, Level, NextItem, Section, Where};
use stl_instructions::instruction;
use stl_places::name_at;
use stl_statement_grammar::Read;
use stl_tree::{BlockKind, RawName};

/// Whether a token is the BEGIN of a block's body after its heading; in a data block only declarations may
/// come there.
fn begins_body(kind: BlockKind, first: &Token) -> bool
    ensures { result ≡ begins_body kind first.now }
{
    !is_data(kind) && is_word(first, "BEGIN")
}

/// A section that opens, if one does.
fn section_found(
    alloc: Global,
    kind: BlockKind,
    reason: Reason,
    first: &Token,
    section: Option<Section>,
) -> NextItem
    ensures { result ≡ section_found kind reason first.now section }
{
    match section {
        Some(section) => NextItem::Fits(
            Item::Starts(section),
            0,
            Where::Inside(kind, section, LinkedList::new(alloc)),
        ),
        None => NextItem::Misfit(first.line, reason),
    }
}

/// Why what comes after the heading of a block is refused.
fn behind_reason(kind: BlockKind, tokens: &[Token]) -> Reason
    ensures { result ≡ behind_reason kind tokens.now }
{
    match kind {
        BlockKind::Db => data_reason(tokens),
        BlockKind::Ob | BlockKind::Fc | BlockKind::Fb => Reason::BadStatement,
    }
}

/// The function block of a data block, by what was read of its name, or another item.
fn instance_or(read: Read<RawName>, other: NextItem) -> NextItem
    ensures { result ≡ instance_or read other }
{
    match read {
        Read::Fits(name, size) => NextItem::Fits(
            Item::InstanceOf(name),
            size.saturating_sub(1),
            Where::Behind(BlockKind::Db, Section::Own),
        ),
        Read::LeftOut(_) | Read::No => other,
    }
}

/// A section after a heading, or in a data block its function block.
fn instance_or_section(
    alloc: Global,
    kind: BlockKind,
    tokens: &[Token],
    first: &Token,
) -> Result<NextItem, NoMemory>
    ensures { IfOk result (λ found. found ≡ instance_found kind tokens.now (section_found kind (behind_reason kind tokens.now) first.now (section_at kind None first.now))) }
{
    let reason = behind_reason(kind, tokens);
    let section = section_at(kind, None, first);
    match kind {
        BlockKind::Db => {
            let read = name_at(alloc, "FB", tokens)?;
            let other = section_found(alloc, kind, reason, first, section);
            Ok(instance_or(read, other))
        }
        BlockKind::Ob | BlockKind::Fc | BlockKind::Fb => {
            Ok(section_found(alloc, kind, reason, first, section))
        }
    }
}

/// The item after a heading whose last line this is.
fn behind_heading(
    alloc: Global,
    kind: BlockKind,
    line: Line,
    tokens: &[Token],
    first: &Token,
    rest: &[Token],
) -> Result<NextItem, NoMemory>
    ensures { IfOk result (λ found. found ≡ behind_heading kind line tokens.now first.now rest.now) }
{
    if is_skipped(line, first, rest) {
        Ok(NextItem::Fits(
            Item::Mark,
            size_on(first.line, rest),
            Where::Heading(kind, first.line),
        ))
    } else if begins_body(kind, first) {
        Ok(NextItem::Fits(Item::Mark, 0, Where::Body(kind)))
    } else {
        instance_or_section(alloc, kind, tokens, first)
    }
}

/// The place of the body of a block.
fn body_of(kind: BlockKind) -> Where
    ensures { result ≡ body_of kind }
{
    match kind {
        BlockKind::Db => Where::Values,
        BlockKind::Ob | BlockKind::Fc | BlockKind::Fb => Where::Body(kind),
    }
}

/// The item after a section.
fn behind_at(alloc: Global, kind: BlockKind, section: Section, first: &Token) -> NextItem
    ensures { result ≡ behind_at kind section first.now }
{
    if is_word(first, "BEGIN") {
        NextItem::Fits(Item::Mark, 0, body_of(kind))
    } else {
        section_found(
            alloc,
            kind,
            Reason::BadStatement,
            first,
            section_at(kind, Some(section), first),
        )
    }
}

/// A complete statement of this many tokens, given the tokens from its place on.
fn complete_from(
    alloc: Global,
    kind: BlockKind,
    line: Line,
    tokens: &[Token],
    size: usize,
) -> Result<NextItem, NoMemory>
    requires { size ≡ statement_size tokens.now }
    ensures { IfOk result (λ found. found ≡ statement_found (Body kind) tokens.now line (instruction_of (statement_at tokens.now))) }
{
    match instruction(alloc, front_of(tokens, size)) {
        Ok(instr) => Ok(NextItem::Fits(Item::Instr(instr), size, Where::Body(kind))),
        Err(Rejection::Refused(_, reason)) => Ok(NextItem::Misfit(line, reason)),
        Err(Rejection::NoMemory) => Err(NoMemory),
    }
}

/// The statement at a place of a body.
fn statement_from(
    alloc: Global,
    kind: BlockKind,
    line: Line,
    tokens: &[Token],
) -> Result<NextItem, NoMemory>
    ensures { IfOk result (λ found. found ≡ statement_from (Body kind) line tokens.now) }
{
    let size = statement_size(tokens);
    if size == tokens.len() {
        return Ok(NextItem::Misfit(line, Reason::BadStatement));
    }
    complete_from(alloc, kind, line, tokens, size)
}

/// Whether a token is skipped in a body: an empty statement or `NETWORK`.
fn is_skipped_alone(token: &Token) -> bool
    ensures { result ≡ is_skipped_alone token.now }
{
    is_semicolon(token) || is_word(token, "NETWORK")
}

/// The item at a place in a body.
fn body_at(
    alloc: Global,
    kind: BlockKind,
    tokens: &[Token],
    first: &Token,
) -> Result<NextItem, NoMemory>
    ensures { IfOk result (λ found. found ≡ body_at kind tokens.now first.now) }
{
    if is_skipped_alone(first) {
        Ok(NextItem::Fits(Item::Mark, 0, Where::Body(kind)))
    } else if is_end(kind, first) {
        Ok(NextItem::Fits(Item::Ends(first.line), 0, Where::Between))
    } else {
        statement_from(alloc, kind, first.line, tokens)
    }
}

/// The item at a place, given the tokens from there, the first of them and the rest.
fn at_token(
    alloc: Global,
    place: Where,
    tokens: &[Token],
    first: &Token,
    rest: &[Token],
) -> Result<NextItem, NoMemory>
    ensures { IfOk result (λ found. found ≡ at_token place tokens.now first.now rest.now) }
{
    match place {
        Where::Start => heading_at(alloc, table_at(tokens, first), first, rest),
        Where::Table(line) => in_table(alloc, line, first, rest),
        Where::Between => {
            let other = NextItem::Misfit(first.line, heading_reason(tokens));
            heading_at(alloc, other, first, rest)
        }
        Where::Heading(kind, line) => behind_heading(alloc, kind, line, tokens, first, rest),
        Where::Inside(kind, section, levels) => {
            inside_at(alloc, kind, section, levels, tokens, first, rest)
        }
        Where::Behind(kind, section) => Ok(behind_at(alloc, kind, section, first)),
        Where::Body(kind) => body_at(alloc, kind, tokens, first),
        Where::Values => values_at(alloc, tokens, first),
    }
}

/// The line where a text ends among declarations: that of the innermost STRUCT, which is cut off.
fn cut_line(end: Line, levels: &LinkedList<Level>) -> Line
    ensures { result ≡ cut_line end levels.now }
{
    match levels.front() {
        Some(level) => level.line,
        None => end,
    }
}

/// What is found where the tokens of a text have ended.
fn at_end(end: Line, place: Where) -> NextItem
    ensures found { result ≡ at_end end place }
    ensures none { HasFirst [] result }
{
    match place {
        Where::Start | Where::Between => NextItem::Ended,
        Where::Inside(_, _, levels) => NextItem::Misfit(
            cut_line(end, &levels),
            Reason::BadStatement,
        ),
        Where::Table(_) | Where::Heading(_, _) | Where::Behind(_, _) | Where::Body(_) => {
            NextItem::Misfit(end, Reason::BadStatement)
        }
        Where::Values => NextItem::Misfit(end, Reason::BadStatement),
    }
}

/// What is found at a place of a text that ends on a line, given the tokens from there.
#[tactic(auto, unfolding(stl_grammar::specs::Items::item_at))]
pub fn item_at(
    alloc: Global,
    end: Line,
    place: Where,
    tokens: &[Token],
) -> Result<NextItem, NoMemory>
    ensures found { IfOk result (λ found. found ≡ item_at end place tokens.now) }
    ensures some { IfOk result (HasFirst tokens.now) }
{
    match tokens {
        [first, rest @ ..] => at_token(alloc, place, tokens, first, rest),
        [] => Ok(at_end(end, place)),
    }
}
