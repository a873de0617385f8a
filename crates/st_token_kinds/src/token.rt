//! The kinds of a text's tokens.
ghost use Rattle.std.specs.Prelude.{◌≡◌, IfOk};
ghost use Rattle.st_grammar.specs.Kinds.{conversion_between, conversion_of_types, conversion_named, size_before_line, kind_of_word, truth, name_kind, word_kind, sign_kind, direct_kind, are_two_digits, typed_kind, decimal_kind, literal_kind, number_kind, word_named, sign_named, text_kind, kind_of};
ghost use Rattle.st_lexer.specs.Literals.{literal_at, base_at, signed_value};
ghost use Rattle.st_lexer.specs.Direct.{direct_of};
ghost use Rattle.st_lexer.specs.Pieces.{token_seen};

use crate::words::{sign_named, word_named};
use s7_base::{Line, List, NoMemory};
use st_grammar::{Fixed, Function, GrammarKind, Literal, OneOperand, Word};
use st_lexer::{
    Base, Lexeme, Literal as LexedLiteral, StKind, base_at, begins_with_digit, direct_at, front_of,
    is_in_range, is_same_word, literal_to, rest_after, type_named,
};
use st_tree::{BinaryOp, RawVar, StType};
use std::alloc::Global;

/// The conversion between two types: they differ, and the second is not BOOL.
fn conversion_between(from: StType, to: StType) -> Option<OneOperand>
    ensures { result ≡ conversion_between from to }
{
    match (from, to) {
        (_, StType::Bool)
        | (StType::Byte, StType::Byte)
        | (StType::Word, StType::Word)
        | (StType::Dword, StType::Dword)
        | (StType::Int, StType::Int)
        | (StType::Dint, StType::Dint)
        | (StType::Lint, StType::Lint) => None,
        _ => Some(OneOperand::Convert(from, to)),
    }
}

fn size_before_line(text: &[u8]) -> usize
    ensures { result ≡ size_before_line text.now }
{
    text.iter().take_while(|b| **b != b'_').count()
}

/// The conversion of a word: a type, `_TO_` and another type.
fn conversion_named(text: &[u8]) -> Option<OneOperand>
    ensures { result ≡ conversion_named text.now }
{
    let size = size_before_line(text);
    let rest = rest_after(text, size);
    if !is_same_word(front_of(rest, 4), "_TO_") {
        return None;
    }
    match (
        type_named(front_of(text, size)),
        type_named(rest_after(rest, 4)),
    ) {
        (Some(from), Some(to)) => conversion_between(from, to),
        _ => None,
    }
}

fn kind_of_word(word: Word, line: Line) -> GrammarKind
    ensures { result ≡ kind_of_word word line }
{
    match word {
        Word::Fixed(fixed) => GrammarKind::Fixed(fixed),
        Word::Lead(lead) => GrammarKind::Lead(lead, line),
        Word::Truth(true) => GrammarKind::Literal(Literal::Typed(StType::Bool, 1)),
        Word::Truth(false) => GrammarKind::Literal(Literal::Typed(StType::Bool, 0)),
    }
}

/// The kind of a word: a reserved word, or else a conversion or a name.
fn word_kind(alloc: Global, text: &[u8], line: Line) -> Result<GrammarKind, NoMemory>
    ensures { IfOk result (λ kind. kind ≡ word_kind (word_named text.now) text.now line) }
{
    if let Some(word) = word_named(text) {
        return Ok(kind_of_word(word, line));
    }
    match conversion_named(text) {
        Some(op) => Ok(GrammarKind::Fixed(Fixed::Function(Function::One(op)))),
        None => {
            let name = List::from_vec(Vec::from_slice(alloc, text)?);
            Ok(GrammarKind::Variable(RawVar::Name(name), line))
        }
    }
}

/// The kind of a sign. `&` is another spelling of AND.
fn sign_kind(text: &[u8]) -> GrammarKind
    ensures { result ≡ sign_kind (sign_named text.now) text.now }
{
    match sign_named(text) {
        Some(fixed) => GrammarKind::Fixed(fixed),
        None => if is_same_word(text, "&") {
            GrammarKind::Fixed(Fixed::Between(BinaryOp::And))
        } else {
            GrammarKind::Misfit
        },
    }
}

fn direct_kind(text: &[u8], line: Line) -> GrammarKind
    ensures { result ≡ direct_kind (direct_of text.now) line }
{
    match direct_at(text) {
        Some(direct) => GrammarKind::Variable(
            RawVar::Direct(
                direct.area,
                direct.block,
                direct.width,
                direct.byte,
                direct.bit,
            ),
            line,
        ),
        None => GrammarKind::Misfit,
    }
}

/// Whether a text is two digits, with or without `_` between them.
fn are_two_digits(text: &[u8]) -> bool
    ensures { result ≡ are_two_digits text.now }
{
    match text {
        [_, _] => true,
        [_, line, _] => *line == b'_',
        _ => false,
    }
}

/// The kind of a literal with its type: its value, where its type has its number.
fn typed_kind(found: LexedLiteral) -> GrammarKind
    ensures { result ≡ typed_kind found }
{
    if !is_in_range(found) {
        return GrammarKind::Misfit;
    }
    let number = i128::from(found.number);
    let value = if found.minus { -number } else { number };
    GrammarKind::Literal(Literal::Typed(found.kind, value as i64))
}

/// The kind of a decimal without a type; a number above 4,294,967,295 is kept as that number.
fn decimal_kind(number: u64) -> GrammarKind
    ensures { result ≡ decimal_kind number }
{
    GrammarKind::Literal(Literal::Decimal(u32::try_from(number).unwrap_or(u32::MAX)))
}

fn literal_kind(base: Base, text: &[u8], found: LexedLiteral) -> GrammarKind
    ensures { result ≡ literal_kind base text.now found }
{
    match base {
        Base::Ten => if begins_with_digit(Base::Ten, text) {
            decimal_kind(found.number)
        } else {
            typed_kind(found)
        },
        Base::Sixteen => if are_two_digits(rest_after(text, 3)) {
            GrammarKind::Literal(Literal::Byte(u8::try_from(found.number).unwrap_or(u8::MAX)))
        } else {
            typed_kind(found)
        },
        Base::Two | Base::Eight => typed_kind(found),
    }
}

fn number_kind(text: &[u8]) -> GrammarKind
    ensures { result ≡ number_kind (literal_at text.now) text.now }
{
    let base = base_at(text);
    match literal_to(base, text) {
        Some(found) => literal_kind(base, text, found),
        None => GrammarKind::Misfit,
    }
}

/// The kind of a token of a text in the grammar.
pub fn kind_of(alloc: Global, token: &Lexeme) -> Result<GrammarKind, NoMemory>
    ensures { IfOk result (λ kind. kind ≡ kind_of (token_seen token.now)) }
{
    let text = token.text;
    match token.kind {
        StKind::Word => word_kind(alloc, text, token.line),
        StKind::Direct => Ok(direct_kind(text, token.line)),
        StKind::Literal => Ok(number_kind(text)),
        StKind::Sign => Ok(sign_kind(text)),
    }
}
