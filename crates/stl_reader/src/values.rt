//! The initial values in the body of a data block, and the ends of blocks.
ghost use Rattle.std.specs.Prelude.{◌≡◌, ◌-◌, IfOk};
ghost use Rattle.stl_grammar.specs.Items.{end_word, is_end, value_found, values_at};

use crate::misfit::left_out_reason;
use s7_base::{NoMemory, Reason, Token};
use std::alloc::Global;
use stl_constants::is_word;
use stl_declarations::path_value_at;
use stl_grammar::{Item, NextItem, Where};
use stl_statement_grammar::Read;
use stl_tree::{BlockKind, RawInitial};

/// The end word of a kind of block.
fn end_word(kind: BlockKind) -> &'static str
    ensures { result.now ≡ end_word kind }
{
    match kind {
        BlockKind::Ob => "END_ORGANIZATION_BLOCK",
        BlockKind::Fc => "END_FUNCTION",
        BlockKind::Fb => "END_FUNCTION_BLOCK",
        BlockKind::Db => "END_DATA_BLOCK",
    }
}

pub fn is_end(kind: BlockKind, token: &Token) -> bool
    ensures { result ≡ is_end kind token.now }
{
    is_word(token, end_word(kind))
}

/// An initial value, by what was read.
fn value_found(tokens: &[Token], first: &Token, read: Read<RawInitial>) -> NextItem
    ensures { result ≡ value_found tokens.now first.now read }
{
    match read {
        Read::Fits(value, size) => {
            NextItem::Fits(Item::Initial(value), size.saturating_sub(1), Where::Values)
        }
        Read::LeftOut(kind) => NextItem::Misfit(first.line, left_out_reason(tokens, kind)),
        Read::No => NextItem::Misfit(first.line, Reason::BadStatement),
    }
}

/// The item among the initial values of a data block.
pub fn values_at(alloc: Global, tokens: &[Token], first: &Token) -> Result<NextItem, NoMemory>
    ensures { IfOk result (λ found. found ≡ values_at tokens.now first.now) }
{
    if is_end(BlockKind::Db, first) {
        return Ok(NextItem::Fits(Item::Ends(first.line), 0, Where::Between));
    }
    let read = path_value_at(alloc, first.line, tokens)?;
    Ok(value_found(tokens, first, read))
}
