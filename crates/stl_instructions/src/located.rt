//! Reads operands that are found in memory, and constants that may stand in their place.
ghost use Rattle.std.specs.Prelude.{◌≡◌, IfOk, map, option_map};
ghost use Rattle.std.specs.List.{find};
ghost use Rattle.stl_statement_grammar.specs.LocatedOperands.{any_constant_at, has_form, is_named, left_out_at, left_out_forms, located_at, place_operand, placed_at, timers_and_counters};
ghost use Rattle.stl_statement_grammar.specs.Paths.{named_at};
ghost use Rattle.stl_statement_grammar.specs.Pointers.{indirect_at};
ghost use Rattle.stl_statement_grammar.specs.Readers.{or_else, read_as};
ghost use Rattle.stl_tree.specs.declared.raw.RawOperand.TheVariants as operand;
ghost use Rattle.stl_instructions.specs.inner.Rows.{named_form_of};

use digit_texts::are_digits;
use s7_base::{Kind, NoMemory, Token, front_of};
use std::alloc::Global;
use stl_constants::{constant_at, is_numbered, is_sign, is_word, is_word_kind};
use stl_places::{crossing_at, indirect_at, named_at, place_at, pointer_at};
use stl_statement_grammar::Read;
use stl_tree::{Constant, RawOperand, RawPlace, RawPointer};

/// A form of a place that is not supported: a word with a number, or with a bracket where it may be indirect,
/// and its kind.
#[derive(Clone, Copy)]
pub struct NamedForm {
    word: &'static str,
    is_indirect: bool,
    kind: Kind,
}

/// The forms of timers, counters, and the peripheral inputs and outputs.
static LEFT_OUT_FORMS: [NamedForm; 8] = [
    NamedForm {
        word: "T",
        is_indirect: false,
        kind: Kind::Timer,
    },
    NamedForm {
        word: "C",
        is_indirect: false,
        kind: Kind::Counter,
    },
    NamedForm {
        word: "PIB",
        is_indirect: true,
        kind: Kind::Peripheral,
    },
    NamedForm {
        word: "PIW",
        is_indirect: true,
        kind: Kind::Peripheral,
    },
    NamedForm {
        word: "PID",
        is_indirect: true,
        kind: Kind::Peripheral,
    },
    NamedForm {
        word: "PQB",
        is_indirect: true,
        kind: Kind::Peripheral,
    },
    NamedForm {
        word: "PQW",
        is_indirect: true,
        kind: Kind::Peripheral,
    },
    NamedForm {
        word: "PQD",
        is_indirect: true,
        kind: Kind::Peripheral,
    },
];

fn is_named(form: &NamedForm, tokens: &[Token]) -> bool
    ensures { result ≡ is_named (named_form_of form.now) tokens.now }
{
    match tokens {
        [next, ..] => {
            (is_word_kind(next) && are_digits(next.text.as_slice()))
                || (form.is_indirect && is_sign(next, "["))
        }
        [] => false,
    }
}

/// Whether the tokens begin with a form that is not supported, in one word or in two.
fn has_form(form: &NamedForm, tokens: &[Token]) -> bool
    ensures { result ≡ has_form tokens.now (named_form_of form.now) }
{
    match tokens {
        [first, rest @ ..] => {
            (is_word(first, form.word) && is_named(form, rest)) || is_numbered(first, form.word)
        }
        [] => false,
    }
}

fn form_found(tokens: &[Token], table: &[NamedForm]) -> Option<NamedForm>
    ensures { result ≡ find (λ f. has_form tokens.now (named_form_of f)) table.now }
{
    table.iter().copied().find(|form| has_form(form, tokens))
}

/// The first form of a table with which the tokens begin.
fn first_form(tokens: &[Token], table: &[NamedForm]) -> Option<NamedForm>
    ensures { option_map named_form_of result ≡ find (has_form tokens.now) (map named_form_of table.now) }
{
    form_found(tokens, table)
}

pub fn timers_and_counters() -> &'static [NamedForm]
    ensures { map named_form_of result.now ≡ timers_and_counters }
{
    front_of(&LEFT_OUT_FORMS, 2)
}

fn left_out_forms() -> &'static [NamedForm]
    ensures { map named_form_of result.now ≡ left_out_forms }
{
    &LEFT_OUT_FORMS
}

/// A form of a table that is not supported.
pub fn left_out_at(table: &[NamedForm], tokens: &[Token]) -> Read<RawPlace>
    ensures { result ≡ left_out_at (map named_form_of table.now) tokens.now }
{
    match first_form(tokens, table) {
        Some(form) => Read::LeftOut(form.kind),
        None => Read::No,
    }
}

/// The operand at a place where a place of memory may be written.
pub fn place_operand(tokens: &[Token]) -> Read<RawPlace>
    ensures { result ≡ place_operand tokens.now }
{
    match place_at(tokens) {
        Read::No => left_out_at(left_out_forms(), tokens),
        read => read,
    }
}

fn named_or_indirect(alloc: Global, tokens: &[Token]) -> Result<Read<RawOperand>, NoMemory>
    ensures { IfOk result (λ read. read ≡ or_else (named_at tokens.now) (indirect_at tokens.now)) }
{
    match named_at(alloc, tokens)? {
        Read::No => Ok(indirect_at(tokens)),
        read => Ok(read),
    }
}

/// The operand at a place where a place of memory, a name, or an area and a pointer may be written.
pub fn placed_at(alloc: Global, tokens: &[Token]) -> Result<Read<RawOperand>, NoMemory>
    ensures { IfOk result (λ read. read ≡ placed_at tokens.now) }
{
    match place_operand(tokens) {
        Read::No => named_or_indirect(alloc, tokens),
        read => Ok(at_place(read)),
    }
}

/// The operand at a place where a place of memory, a name or a pointer, with or without an area, may be
/// written.
pub fn located_at(alloc: Global, tokens: &[Token]) -> Result<Read<RawOperand>, NoMemory>
    ensures { IfOk result (λ read. read ≡ located_at tokens.now) }
{
    match placed_at(alloc, tokens)? {
        Read::No => Ok(crossing_at(tokens)),
        read => Ok(read),
    }
}

pub fn at_place(read: Read<RawPlace>) -> Read<RawOperand>
    ensures { result ≡ read_as operand.At read }
{
    match read {
        Read::Fits(place, size) => Read::Fits(RawOperand::At(place), size),
        Read::LeftOut(kind) => Read::LeftOut(kind),
        Read::No => Read::No,
    }
}

pub fn at_constant(read: Read<Constant>) -> Read<RawOperand>
    ensures { result ≡ read_as operand.Constant read }
{
    match read {
        Read::Fits(constant, size) => Read::Fits(RawOperand::Constant(constant), size),
        Read::LeftOut(kind) => Read::LeftOut(kind),
        Read::No => Read::No,
    }
}

pub fn at_pointer(read: Read<RawPointer>) -> Read<RawOperand>
    ensures { result ≡ read_as operand.Pointer read }
{
    match read {
        Read::Fits(pointer, size) => Read::Fits(RawOperand::Pointer(pointer), size),
        Read::LeftOut(kind) => Read::LeftOut(kind),
        Read::No => Read::No,
    }
}

/// A constant as an operand, also that of a pointer.
pub fn any_constant_at(tokens: &[Token]) -> Read<RawOperand>
    ensures { result ≡ any_constant_at tokens.now }
{
    match constant_at(tokens) {
        Read::No => at_pointer(pointer_at(tokens)),
        read => at_constant(read),
    }
}
