//! Looking up a mnemonic, by its name and at the front of tokens.
ghost use Rattle.std.specs.Prelude.{◌≡◌, ◌&&◌, ◌||◌, codes, map, option_map};
ghost use Rattle.std.specs.List.{find};
ghost use Rattle.s7_base.specs.Tokens.{is_same_word};
ghost use Rattle.stl_statement_grammar.specs.Mnemonics.{goes_on, stands_at, mnemonic_at, has_name, rows, mnemonic_named};
ghost use Rattle.stl_statement_grammar.specs.Words.{is_sign, is_spelled};
ghost use Rattle.stl_mnemonics.specs.Rows.{view};
ghost use Rattle.stl_mnemonics.specs.inner.LowBits.{first_bits, low_bits};

use crate::rows::rows_by;
use s7_base::{Token, front_of, is_same_word, rest_after};
use stl_constants::{is_sign, is_spelled, is_word_or_sign};
use stl_statement_grammar::Mnemonic;

/// A line of the table: a word or a sign, the word or sign after it, if there is one, and what the mnemonic
/// is.
#[derive(Clone, Copy)]
pub struct Row(pub &'static str, pub &'static str, pub Mnemonic);

/// Whether the tokens begin with the second part of a mnemonic, or it has none.
pub fn goes_on(second: &str, tokens: &[Token]) -> bool
    ensures { result ≡ goes_on second.now tokens.now }
{
    if second.is_empty() {
        return true;
    }
    match tokens {
        [token, ..] => is_spelled(token, second) && (token.glued || is_sign(token, "(")),
        [] => false,
    }
}

/// The low five bits of the first byte, by which the table has its lines.
fn low_bits(text: &[u8]) -> u8
    ensures { result ≡ low_bits text.now }
{
    match text {
        [first, ..] => first % 32,
        [] => 0,
    }
}

/// The low five bits of the first token's first byte.
fn first_bits(tokens: &[Token]) -> u8
    ensures { result ≡ first_bits tokens.now }
{
    match tokens {
        [first, ..] => low_bits(first.text.as_slice()),
        [] => 0,
    }
}

/// The first line of a table with whose mnemonic the tokens begin.
fn first_row(tokens: &[Token], table: &[Row]) -> Option<Row>
    ensures { option_map view result ≡ find (stands_at tokens.now) (map view table.now) }
{
    row_found(tokens, table)
}

fn row_found(tokens: &[Token], table: &[Row]) -> Option<Row>
    ensures { result ≡ find (λ row. stands_at tokens.now (view row)) table.now }
{
    match tokens {
        [first, rest @ ..] => row_at(first, rest, table),
        [] => None,
    }
}

/// The first line of a table whose first part is this token and whose second part follows it.
fn row_at(first: &Token, rest: &[Token], table: &[Row]) -> Option<Row>
    ensures { result ≡ find (λ row. is_spelled row.0.now first.now && goes_on row.1.now rest.now) table.now }
{
    if is_word_or_sign(first) {
        row_spelled(first.text.as_slice(), rest, table)
    } else {
        None
    }
}

/// The first line of a table whose first part has this text and whose second part follows it. The text is
/// taken from its token once for all lines.
fn row_spelled(text: &[u8], rest: &[Token], table: &[Row]) -> Option<Row>
    ensures { result ≡ find (λ row. is_same_word text.now row.0.now && goes_on row.1.now rest.now) table.now }
{
    table
        .iter()
        .copied()
        .find(|row| is_same_word(text, row.0) && goes_on(row.1, rest))
}

/// The mnemonic with which the tokens begin, as a line of the table.
#[tactic(auto, unfolding(stl_statement_grammar::specs::Mnemonics::mnemonic_at))]
pub fn mnemonic_at(tokens: &[Token]) -> Option<Row>
    ensures { option_map view result ≡ mnemonic_at tokens.now }
{
    first_row(tokens, rows_by(first_bits(tokens)))
}

fn has_name(row: &Row, name: &[u8]) -> bool
    ensures { result ≡ has_name name.now (view row.now) }
{
    let size = row.0.len();
    is_same_word(front_of(name, size), row.0) && is_same_word(rest_after(name, size), row.1)
}

fn row_called(name: &[u8], table: &[Row]) -> Option<Row>
    ensures { result ≡ find (λ row. has_name name.now (view row)) table.now }
{
    table.iter().copied().find(|row| has_name(row, name))
}

/// The first line of a table whose mnemonic has this name.
fn row_named(name: &[u8], table: &[Row]) -> Option<Row>
    ensures { option_map view result ≡ find (has_name name.now) (map view table.now) }
{
    row_called(name, table)
}

fn row_of(name: &[u8]) -> Option<Row>
    ensures { option_map view result ≡ find (has_name name.now) rows }
{
    row_named(name, rows_by(low_bits(name)))
}

/// What the mnemonic of a name is.
#[tactic(auto, unfolding(stl_statement_grammar::specs::Mnemonics::mnemonic_named))]
pub fn mnemonic_named(name: &[u8]) -> Option<Mnemonic>
    ensures { result ≡ mnemonic_named name.now }
{
    match row_of(name) {
        Some(row) => Some(row.2),
        None => None,
    }
}
