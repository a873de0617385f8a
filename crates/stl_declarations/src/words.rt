//! Tables of words, and the words of types that are not supported.
ghost use Rattle.std.specs.Prelude.{◌≡◌};
ghost use Rattle.std.specs.List.{list_any};
ghost use Rattle.std.specs.Str.{str_eq_ignore_ascii_case};
ghost use Rattle.stl_grammar.specs.Declarations.{pointer_types, time_types};
ghost use Rattle.stl_statement_grammar.specs.Words.{is_word_among};

use s7_base::{Token, is_same_word};
use stl_constants::is_word_kind;

/// The types of pointers.
const POINTER_TYPES: [&str; 8] = [
    "ANY",
    "POINTER",
    "BLOCK_FB",
    "BLOCK_FC",
    "BLOCK_DB",
    "BLOCK_SDB",
    "TIMER",
    "COUNTER",
];

/// The types of times and dates.
const TIME_TYPES: [&str; 4] = ["TIME", "S5TIME", "DATE", "TIME_OF_DAY"];

/// Whether the word is one of a table, in any case.
pub fn is_listed(word: &[u8], table: &[&str]) -> bool
    ensures { result ≡ list_any (λ entry. str_eq_ignore_ascii_case word.now entry.now) table.now }
{
    table.iter().any(|entry| is_same_word(word, entry))
}

pub fn is_pointer_type(token: &Token) -> bool
    ensures { result ≡ is_word_among pointer_types token.now }
{
    is_word_kind(token) && is_listed(token.text.as_slice(), &POINTER_TYPES)
}

pub fn is_time_type(token: &Token) -> bool
    ensures { result ≡ is_word_among time_types token.now }
{
    is_word_kind(token) && is_listed(token.text.as_slice(), &TIME_TYPES)
}
