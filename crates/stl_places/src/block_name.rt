//! Reads the names of blocks.
ghost use Rattle.std.specs.Prelude.{◌≡◌, ◌≤◌, IfOk};
ghost use Rattle.stl_statement_grammar.specs.BlockNames.{begins_with_number, has_number, kind_word, name_at, number_behind, number_named, number_within};
ghost use Rattle.stl_statement_grammar.specs.Readers.{IsWithin};

use crate::path::{name_of, number_word};
use digit_texts::{are_digits, kept_number};
use s7_base::{NoMemory, Token, rest_after};
use std::alloc::Global;
use stl_constants::{fitting, is_numbered, is_quoted, is_word, is_word_kind};
use stl_statement_grammar::Read;
use stl_tree::{BlockKind, RawName};

/// The word before the number of a block.
pub fn kind_word(kind: BlockKind) -> &'static str
    ensures { result.now ≡ kind_word kind }
{
    match kind {
        BlockKind::Ob => "OB",
        BlockKind::Fc => "FC",
        BlockKind::Fb => "FB",
        BlockKind::Db => "DB",
    }
}

fn begins_with_number(tokens: &[Token]) -> bool
    ensures { result ≡ begins_with_number tokens.now }
{
    match tokens {
        [first, ..] => is_word_kind(first) && are_digits(first.text.as_slice()),
        [] => false,
    }
}

/// Whether the tokens are a word with a number, `UDT 5` or `UDT5`.
pub fn has_number(word: &str, first: &Token, rest: &[Token]) -> bool
    ensures { result ≡ has_number word.now first.now rest.now }
{
    (is_word(first, word) && begins_with_number(rest)) || is_numbered(first, word)
}

/// The number after the word of a kind.
fn number_behind(tokens: &[Token]) -> Option<u32>
    ensures { result ≡ number_behind tokens.now }
{
    match tokens {
        [number, ..] => number_word(number),
        [] => None,
    }
}

/// The number in a word that begins with the word of a kind.
fn number_within(kind: &str, word: &Token) -> Option<u32>
    ensures { result ≡ number_within kind.now word.now }
{
    if is_numbered(word, kind) {
        kept_number(rest_after(word.text.as_slice(), kind.len()))
    } else {
        None
    }
}

/// A block by its number.
fn number_named(kind: &str, first: &Token, rest: &[Token]) -> Read<RawName>
    ensures value { result ≡ number_named kind.now first.now rest.now }
    ensures within { IsWithin 2 result }
{
    if is_word(first, kind) {
        fitting(2, number_behind(rest).map(RawName::Number))
    } else {
        fitting(1, number_within(kind, first).map(RawName::Number))
    }
}

/// The name at a place where a block is named by the word of its kind and its number, or by a name in quotes.
pub fn name_at(alloc: Global, kind: &str, tokens: &[Token]) -> Result<Read<RawName>, NoMemory>
    ensures value { IfOk result (λ found. found ≡ name_at kind.now tokens.now) }
    ensures within { IfOk result (IsWithin 2) }
{
    let [first, rest @ ..] = tokens else {
        return Ok(Read::No);
    };
    if is_quoted(first) {
        let name = name_of(alloc, first)?;
        return Ok(Read::Fits(RawName::Name(name), 1));
    }
    Ok(number_named(kind, first, rest))
}
