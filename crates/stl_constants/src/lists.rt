//! Lists with commas between their elements, and words and signs at the front of tokens.
ghost use Rattle.std.specs.Prelude.{◌≡◌, ◌+◌, IfOk};
ghost use Rattle.stl_statement_grammar.specs.Lists.{begins_with_sign, begins_with_word};
ghost use Rattle.stl_statement_grammar.specs.Readers.{further};
ghost use Rattle.stl_constants.specs.inner.Lists.{next_of};

use crate::words::{is_sign, is_word};
use s7_base::{NoMemory, Token};
use stl_statement_grammar::Read;

pub fn begins_with_word(word: &str, tokens: &[Token]) -> bool
    ensures { result ≡ begins_with_word word.now tokens.now }
{
    match tokens {
        [first, ..] => is_word(first, word),
        [] => false,
    }
}

pub fn begins_with_sign(sign: &str, tokens: &[Token]) -> bool
    ensures { result ≡ begins_with_sign sign.now tokens.now }
{
    match tokens {
        [first, ..] => is_sign(first, sign),
        [] => false,
    }
}

/// The sum of two numbers of tokens, plus one.
pub fn one_more(before: usize, size: usize) -> Result<usize, NoMemory>
    ensures { IfOk result (λ sum. sum ≡ before + (size + 1)) }
{
    let more = size.checked_add(1).ok_or(NoMemory)?;
    before.checked_add(more).ok_or(NoMemory)
}

/// What was read after this many tokens, with these included.
pub fn further<T: Drop>(before: usize, read: Read<T>) -> Result<Read<T>, NoMemory>
    ensures { IfOk result (λ found. found ≡ further before read) }
{
    match read {
        Read::Fits(found, size) => {
            let size = before.checked_add(size).ok_or(NoMemory)?;
            Ok(Read::Fits(found, size))
        }
        Read::LeftOut(kind) => Ok(Read::LeftOut(kind)),
        Read::No => Ok(Read::No),
    }
}

/// What follows an element of a list.
#[derive(Clone, Copy)]
pub enum Next {
    /// The end of the list.
    End,

    /// A comma and another element.
    More,

    Other,
}

pub fn next_of(close: &str, tokens: &[Token]) -> Next
    ensures { result ≡ next_of close.now tokens.now }
{
    match tokens {
        [sign, ..] if is_sign(sign, close) => Next::End,
        [sign, ..] if is_sign(sign, ",") => Next::More,
        _ => Next::Other,
    }
}
