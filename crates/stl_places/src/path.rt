//! Reads paths and names.
ghost use Rattle.std.specs.Prelude.{◌≡◌, ◌≤◌, ◌<◌, ◌-◌, ◌^◌, ◌∷◌, IfOk, length};
ghost use Rattle.stl_statement_grammar.specs.Paths.{after_indices, component_at, element_at, in_block_behind, indices_at, indices_behind, local_behind, minus_number, named_at, named_behind, next_index_at, number_word, path_at, plain_number, step_at, whole_at};
ghost use Rattle.stl_statement_grammar.specs.Readers.{TakesSome, read_as, all_items};
ghost use Rattle.stl_statement_grammar.specs.declared.mnemonic.Read.TheVariants.{Fits};
ghost use Rattle.stl_tree.specs.declared.raw.PathStep.TheVariants as step;

use digit_texts::kept_number;
use s7_base::{List, NoMemory, Token, rest_after};
use std::alloc::Global;
use stl_constants::{
    begins_glued, fitting, is_joined, is_joined_word, is_quoted, is_sign, is_word_kind,
};
use stl_statement_grammar::Read;
use stl_tree::{PathStep, RawOperand};

/// A word that is a number of any size.
pub fn number_word(token: &Token) -> Option<u32>
    ensures { result ≡ number_word token.now }
{
    if is_word_kind(token) {
        kept_number(token.text.as_slice())
    } else {
        None
    }
}

/// A number after a minus, with no blank between them.
fn minus_number(token: &Token) -> Option<i64>
    ensures { result ≡ minus_number token.now }
{
    if token.glued {
        Some(-i64::from(number_word(token)?))
    } else {
        None
    }
}

fn plain_number(token: &Token) -> Option<i64>
    ensures { result ≡ plain_number token.now }
{
    Some(i64::from(number_word(token)?))
}

/// A whole number.
pub fn whole_at(tokens: &[Token]) -> Read<i64>
    ensures value { result ≡ whole_at tokens.now }
    ensures within { TakesSome (length tokens.now) result }
{
    match tokens {
        [first, second, ..] if is_sign(first, "-") => fitting(2, minus_number(second)),
        [first, ..] => fitting(1, plain_number(first)),
        [] => Read::No,
    }
}

/// A comma and a whole number.
fn next_index_at(tokens: &[Token]) -> Read<i64>
    ensures value { result ≡ next_index_at tokens.now }
    ensures within { TakesSome (length tokens.now) result }
{
    match tokens {
        [comma, rest @ ..] if is_sign(comma, ",") => match whole_at(rest) {
            Read::Fits(index, size) => Read::Fits(index, size + 1),
            Read::LeftOut(kind) => Read::LeftOut(kind),
            Read::No => Read::No,
        },
        _ => Read::No,
    }
}

/// An index and those after it, with the number of tokens of these.
fn more_indices(alloc: Global, first: i64, tokens: &[Token]) -> Result<(List<i64>, usize), NoMemory>
    ensures value { IfOk result (λ all. read_as (λ more. first ∷ more) (all_items next_index_at 0 tokens.now) ≡ Fits all.0 all.1) }
    ensures within { IfOk result (λ all. all.1 ≤ length tokens.now) }
{
    let mut indices = List::new(alloc);
    indices.push(first)?;
    let mut rest = tokens;
    let mut taken = 0;
    while let Read::Fits(index, size) = next_index_at(rest) {
        indices.push(index)?;
        taken += size;
        rest = rest_after(rest, size);
    }
    Ok((indices, taken))
}

/// The indices after a first one, and the bracket that closes them.
fn indices_behind(alloc: Global, index: i64, tokens: &[Token]) -> Result<Read<List<i64>>, NoMemory>
    ensures value { IfOk result (λ read. read ≡ indices_behind index tokens.now) }
    ensures within { IfOk result (TakesSome (length tokens.now)) }
{
    let (indices, taken) = more_indices(alloc, index, tokens)?;
    match rest_after(tokens, taken) {
        [first, ..] if is_sign(first, "]") => Ok(Read::Fits(indices, taken + 1)),
        _ => Ok(Read::No),
    }
}

/// The indices after a bracket, one or several, and the bracket that closes them.
fn indices_at(alloc: Global, tokens: &[Token]) -> Result<Read<List<i64>>, NoMemory>
    ensures value { IfOk result (λ read. read ≡ indices_at tokens.now) }
    ensures within { IfOk result (TakesSome (length tokens.now)) }
{
    match whole_at(tokens) {
        Read::Fits(index, size) => match indices_behind(alloc, index, rest_after(tokens, size))? {
            Read::Fits(indices, more) => Ok(Read::Fits(indices, size + more)),
            Read::LeftOut(kind) => Ok(Read::LeftOut(kind)),
            Read::No => Ok(Read::No),
        },
        Read::LeftOut(kind) => Ok(Read::LeftOut(kind)),
        Read::No => Ok(Read::No),
    }
}

/// The text of a token as a name.
pub fn name_of(alloc: Global, token: &Token) -> Result<List<u8>, NoMemory>
    ensures { IfOk result (λ name. name ≡ token.now.text) }
{
    Ok(List::from_vec(Vec::from_slice(alloc, token.text.as_slice())?))
}

/// A point and a name, with no blank before either.
fn component_at(alloc: Global, tokens: &[Token]) -> Result<Read<PathStep>, NoMemory>
    ensures value { IfOk result (λ read. read ≡ component_at tokens.now) }
    ensures within { IfOk result (TakesSome (length tokens.now)) }
{
    match tokens {
        [point, word, ..] if is_joined(point, ".") && is_joined_word(word) => {
            Ok(Read::Fits(PathStep::Name(name_of(alloc, word)?), 2))
        }
        _ => Ok(Read::No),
    }
}

/// Indices in brackets.
fn element_at(alloc: Global, tokens: &[Token]) -> Result<Read<PathStep>, NoMemory>
    ensures value { IfOk result (λ read. read ≡ element_at tokens.now) }
    ensures within { IfOk result (TakesSome (length tokens.now)) }
{
    match tokens {
        [first, rest @ ..] if is_sign(first, "[") => match indices_at(alloc, rest)? {
            Read::Fits(indices, size) => Ok(Read::Fits(PathStep::Index(indices), size + 1)),
            Read::LeftOut(kind) => Ok(Read::LeftOut(kind)),
            Read::No => Ok(Read::No),
        },
        _ => Ok(Read::No),
    }
}

fn step_at(alloc: Global, tokens: &[Token]) -> Result<Read<PathStep>, NoMemory>
    ensures value { IfOk result (λ read. read ≡ step_at tokens.now) }
    ensures within { IfOk result (TakesSome (length tokens.now)) }
{
    match component_at(alloc, tokens)? {
        Read::No => element_at(alloc, tokens),
        read => Ok(read),
    }
}

/// A name and the steps after it, with the number of tokens of these.
fn steps_behind(
    alloc: Global,
    name: List<u8>,
    tokens: &[Token],
) -> Result<(List<PathStep>, usize), NoMemory>
    ensures value { IfOk result (λ all. read_as (λ more. step.Name name ∷ more) (all_items step_at 0 tokens.now) ≡ Fits all.0 all.1) }
    ensures within { IfOk result (λ all. all.1 ≤ length tokens.now) }
{
    let mut steps = List::new(alloc);
    steps.push(PathStep::Name(name))?;
    let mut rest = tokens;
    let mut taken = 0;
    while let Read::Fits(step, size) = step_at(alloc, rest)? {
        steps.push(step)?;
        taken += size;
        rest = rest_after(rest, size);
    }
    Ok((steps, taken))
}

/// A path: a name, and all steps after it.
pub fn path_at(alloc: Global, tokens: &[Token]) -> Result<Read<List<PathStep>>, NoMemory>
    ensures value { IfOk result (λ read. read ≡ path_at tokens.now) }
    ensures within { IfOk result (TakesSome (length tokens.now)) }
{
    match tokens {
        [word, rest @ ..] if is_word_kind(word) => {
            let (steps, size) = steps_behind(alloc, name_of(alloc, word)?, rest)?;
            Ok(Read::Fits(steps, size + 1))
        }
        _ => Ok(Read::No),
    }
}

/// A path in a data block, after the name of the block: a point and the path, with no blank before either.
fn in_block_behind(
    alloc: Global,
    name: &Token,
    tokens: &[Token],
) -> Result<Read<RawOperand>, NoMemory>
    requires { length tokens.now < 2 ^ 64 - 1 }
    ensures { IfOk result (λ read. read ≡ in_block_behind name.now.text tokens.now) }
{
    match tokens {
        [point, rest @ ..] if is_joined(point, ".") && begins_glued(rest) => match path_at(
            alloc, rest,
        )? {
            Read::Fits(steps, size) => Ok(Read::Fits(
                RawOperand::InBlock(name_of(alloc, name)?, steps),
                size + 2,
            )),
            Read::LeftOut(kind) => Ok(Read::LeftOut(kind)),
            Read::No => Ok(Read::No),
        },
        _ => Ok(Read::No),
    }
}

/// A name of the symbol table, or a path in the data block of this name.
fn named_behind(alloc: Global, name: &Token, tokens: &[Token]) -> Result<Read<RawOperand>, NoMemory>
    requires { length tokens.now < 2 ^ 64 - 1 }
    ensures { IfOk result (λ read. read ≡ named_behind name.now.text tokens.now) }
{
    match in_block_behind(alloc, name, tokens)? {
        Read::No => Ok(Read::Fits(RawOperand::Named(name_of(alloc, name)?), 1)),
        read => Ok(read),
    }
}

/// A variable: `#` and a path, with no blank between them.
fn local_behind(alloc: Global, tokens: &[Token]) -> Result<Read<RawOperand>, NoMemory>
    requires { length tokens.now < 2 ^ 64 - 1 }
    ensures { IfOk result (λ read. read ≡ local_behind tokens.now) }
{
    if !begins_glued(tokens) {
        return Ok(Read::No);
    }
    match path_at(alloc, tokens)? {
        Read::Fits(steps, size) => Ok(Read::Fits(RawOperand::Local(steps), size + 1)),
        Read::LeftOut(kind) => Ok(Read::LeftOut(kind)),
        Read::No => Ok(Read::No),
    }
}

/// The name at a place where a place of memory may be written.
pub fn named_at(alloc: Global, tokens: &[Token]) -> Result<Read<RawOperand>, NoMemory>
    ensures { IfOk result (λ read. read ≡ named_at tokens.now) }
{
    match tokens {
        [first, rest @ ..] if is_quoted(first) => named_behind(alloc, first, rest),
        [first, rest @ ..] if is_sign(first, "#") => local_behind(alloc, rest),
        _ => Ok(Read::No),
    }
}
