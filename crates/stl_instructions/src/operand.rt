//! Reads the operand of an instruction.
ghost use Rattle.std.specs.Prelude.{◌≡◌, IfOk, ◌&&◌, ◌||◌};
ghost use Rattle.std.specs.List.{find};
ghost use Rattle.s7_base.specs.Tokens.{is_same_word};
ghost use Rattle.stl_statement_grammar.specs.Constants.{number_at};
ghost use Rattle.stl_statement_grammar.specs.Mnemonics.{goes_on};
ghost use Rattle.stl_statement_grammar.specs.LocatedOperands.{any_constant_at, located_at, placed_at};
ghost use Rattle.stl_statement_grammar.specs.Pointers.{offset_at, pointer_at};
ghost use Rattle.stl_statement_grammar.specs.Readers.{or_else, read_as};
ghost use Rattle.stl_statement_grammar.specs.Statements.{block_number_at, checked_at, checked_form, first_of, is_asked, is_label, is_label_word, label_at, length_at, loaded_at, nothing_at, operand_by, operand_of, or_nothing, other_at, pointer_alone_at, pointer_loaded_at, pointer_stored_at, second_of, operand_form_of, size_with, status_at, stored_at, stw_at, tests};
ghost use Rattle.stl_statement_grammar.specs.Words.{is_spelled};
ghost use Rattle.stl_tree.specs.declared.raw.RawOperand.TheVariants as operand;
ghost use Rattle.stl_instructions.specs.inner.PlainForms.{IsPlainForm};

use crate::call::{called_alone_at, called_at};
use crate::located::{
    any_constant_at, at_constant, at_place, at_pointer, left_out_at, located_at, placed_at,
    timers_and_counters,
};
use crate::opened::opened_at;
use s7_base::{Check, Kind, NoMemory, Token, is_same_word};
use status_word::Test;
use std::alloc::Global;
use stl_constants::{
    addend_at, is_word, is_word_kind, is_word_or_sign, left_out_constant_at, number_at,
};
use stl_mnemonics::goes_on;
use stl_places::{name_of, offset_at, pointer_at};
use stl_statement_grammar::{Mnemonic, OperandForm, Read};
use stl_tree::{Ar, RawOperand};

/// How many tokens a mnemonic or a test of the status word takes, by its second part.
pub fn size_with(second: &str) -> usize
    ensures { result ≡ size_with second.now }
{
    if second.is_empty() { 1 } else { 2 }
}

/// The tests of the status word.
static TESTS: [Test; 10] = [
    Test::Eq,
    Test::Ne,
    Test::Gt,
    Test::Lt,
    Test::Ge,
    Test::Le,
    Test::Uo,
    Test::Ov,
    Test::Os,
    Test::Br,
];

/// The word or the sign with which a test begins.
fn first_of(test: Test) -> &'static str
    ensures { result.now ≡ first_of test }
{
    match test {
        Test::Eq => "==",
        Test::Ne => "<>",
        Test::Gt => ">",
        Test::Lt => "<",
        Test::Ge => ">=",
        Test::Le => "<=",
        Test::Uo => "UO",
        Test::Ov => "OV",
        Test::Os => "OS",
        Test::Br => "BR",
    }
}

/// The second part of a test as it is written: `0` after a comparison, else empty.
fn second_of(test: Test) -> &'static str
    ensures { result.now ≡ second_of test }
{
    match test {
        Test::Eq | Test::Ne | Test::Gt | Test::Lt | Test::Ge | Test::Le => "0",
        Test::Uo | Test::Ov | Test::Os | Test::Br => "",
    }
}

/// The first test of a table with which the tokens begin.
fn first_asked(tokens: &[Token], table: &[Test]) -> Option<Test>
    ensures { result ≡ find (λ test. is_asked tokens.now test) table.now }
{
    match tokens {
        [first, rest @ ..] => test_at(first, rest, table),
        [] => None,
    }
}

/// The first test of a table whose first part is this token and whose second part follows it.
fn test_at(first: &Token, rest: &[Token], table: &[Test]) -> Option<Test>
    ensures { result ≡ find (λ test. is_spelled (first_of test) first.now && goes_on (second_of test) rest.now) table.now }
{
    if is_word_or_sign(first) {
        test_spelled(first.text.as_slice(), rest, table)
    } else {
        None
    }
}

/// The first test of a table whose first part has this text and whose second part follows it. The text is
/// taken from its token once for all tests.
fn test_spelled(text: &[u8], rest: &[Token], table: &[Test]) -> Option<Test>
    ensures { result ≡ find (λ test. is_same_word text.now (first_of test) && goes_on (second_of test) rest.now) table.now }
{
    table.iter().copied().find(|test| is_same_word(text, first_of(*test))
        && goes_on(second_of(*test), rest))
}

fn asked_test(tokens: &[Token]) -> Option<Test>
    ensures { result ≡ find (is_asked tokens.now) tests }
{
    first_asked(tokens, &TESTS)
}

/// The operand at a place where a test of the status word may be written.
fn status_at(tokens: &[Token]) -> Read<RawOperand>
    ensures { result ≡ status_at tokens.now }
{
    match asked_test(tokens) {
        Some(test) => Read::Fits(RawOperand::Flag(test), size_with(second_of(test))),
        None => Read::No,
    }
}

/// The status word as an operand.
fn stw_at(tokens: &[Token]) -> Read<RawOperand>
    ensures { result ≡ stw_at tokens.now }
{
    match tokens {
        [first, ..] if is_word(first, "STW") => Read::Fits(RawOperand::Stw, 1),
        _ => Read::No,
    }
}

/// The number of the open data block or of the open instance as an operand.
fn block_number_at(tokens: &[Token]) -> Read<RawOperand>
    ensures { result ≡ block_number_at tokens.now }
{
    match tokens {
        [first, ..] if is_word(first, "DBNO") => Read::Fits(RawOperand::DbNo, 1),
        [first, ..] if is_word(first, "DINO") => Read::Fits(RawOperand::DiNo, 1),
        _ => Read::No,
    }
}

/// The length of a data block as an operand, which is not supported.
fn length_at(tokens: &[Token]) -> Read<RawOperand>
    ensures { result ≡ length_at tokens.now }
{
    match tokens {
        [first, ..] if is_word(first, "DBLG") || is_word(first, "DILG") => {
            Read::LeftOut(Kind::DbLength)
        }
        _ => Read::No,
    }
}

fn nothing_at(tokens: &[Token]) -> Read<RawOperand>
    ensures { result ≡ nothing_at tokens.now }
{
    match tokens {
        [] => Read::Fits(RawOperand::Missing, 0),
        _ => Read::No,
    }
}

/// The operand of a check: a place, a name, or a test of the status word.
fn checked_at(alloc: Global, tokens: &[Token]) -> Result<Read<RawOperand>, NoMemory>
    ensures { IfOk result (λ read. read ≡ checked_at tokens.now) }
{
    match status_at(tokens) {
        Read::No => located_at(alloc, tokens),
        read => Ok(read),
    }
}

/// The operand of `T`.
fn stored_at(alloc: Global, tokens: &[Token]) -> Result<Read<RawOperand>, NoMemory>
    ensures { IfOk result (λ read. read ≡ stored_at tokens.now) }
{
    match stw_at(tokens) {
        Read::No => located_at(alloc, tokens),
        read => Ok(read),
    }
}

fn located_or_length(alloc: Global, tokens: &[Token]) -> Result<Read<RawOperand>, NoMemory>
    ensures { IfOk result (λ read. read ≡ or_else (located_at tokens.now) (length_at tokens.now)) }
{
    match located_at(alloc, tokens)? {
        Read::No => Ok(length_at(tokens)),
        read => Ok(read),
    }
}

/// The operand of `L` that is a word of its own: the status word, or the number of an open data block.
fn register_at(tokens: &[Token]) -> Read<RawOperand>
    ensures { result ≡ or_else (stw_at tokens.now) (block_number_at tokens.now) }
{
    match stw_at(tokens) {
        Read::No => block_number_at(tokens),
        read => read,
    }
}

fn constant_or_located(alloc: Global, tokens: &[Token]) -> Result<Read<RawOperand>, NoMemory>
    ensures { IfOk result (λ read. read
        ≡ or_else (any_constant_at tokens.now) (or_else (located_at tokens.now) (length_at tokens.now))) }
{
    match any_constant_at(tokens) {
        Read::No => located_or_length(alloc, tokens),
        read => Ok(read),
    }
}

/// The operand of `L`.
fn loaded_at(alloc: Global, tokens: &[Token]) -> Result<Read<RawOperand>, NoMemory>
    ensures { IfOk result (λ read. read ≡ loaded_at tokens.now) }
{
    match register_at(tokens) {
        Read::No => constant_or_located(alloc, tokens),
        read => Ok(read),
    }
}

/// A pointer where no other constant may be written; constants that are not supported are named too.
fn pointer_alone_at(tokens: &[Token]) -> Read<RawOperand>
    ensures { result ≡ pointer_alone_at pointer_at tokens.now }
{
    match left_out_constant_at(tokens) {
        Read::No => at_pointer(pointer_at(tokens)),
        read => at_constant(read),
    }
}

/// An offset where no other constant may be written; constants that are not supported are named too.
fn offset_alone_at(tokens: &[Token]) -> Read<RawOperand>
    ensures { result ≡ pointer_alone_at offset_at tokens.now }
{
    match left_out_constant_at(tokens) {
        Read::No => at_pointer(offset_at(tokens)),
        read => at_constant(read),
    }
}

/// AR2 as the operand of `LAR1` and `TAR1`, which alone take it.
fn other_at(register: Ar, tokens: &[Token]) -> Read<RawOperand>
    ensures { result ≡ other_at register tokens.now }
{
    match (register, tokens) {
        (Ar::One, [first, ..]) if is_word(first, "AR2") => Read::Fits(RawOperand::OtherAr, 1),
        _ => Read::No,
    }
}

fn pointer_or_placed(alloc: Global, tokens: &[Token]) -> Result<Read<RawOperand>, NoMemory>
    ensures { IfOk result (λ read. read ≡ or_else (pointer_alone_at pointer_at tokens.now) (placed_at tokens.now)) }
{
    match pointer_alone_at(tokens) {
        Read::No => placed_at(alloc, tokens),
        read => Ok(read),
    }
}

/// The operand of `LAR1` and `LAR2`.
fn pointer_loaded_at(
    alloc: Global,
    register: Ar,
    tokens: &[Token],
) -> Result<Read<RawOperand>, NoMemory>
    ensures { IfOk result (λ read. read ≡ pointer_loaded_at register tokens.now) }
{
    match other_at(register, tokens) {
        Read::No => pointer_or_placed(alloc, tokens),
        read => Ok(read),
    }
}

/// The operand of `TAR1` and `TAR2`.
fn pointer_stored_at(
    alloc: Global,
    register: Ar,
    tokens: &[Token],
) -> Result<Read<RawOperand>, NoMemory>
    ensures { IfOk result (λ read. read ≡ pointer_stored_at register tokens.now) }
{
    match other_at(register, tokens) {
        Read::No => placed_at(alloc, tokens),
        read => Ok(read),
    }
}

fn checked_or_nothing(alloc: Global, tokens: &[Token]) -> Result<Read<RawOperand>, NoMemory>
    ensures { IfOk result (λ read. read ≡ or_nothing tokens.now (checked_at tokens.now)) }
{
    match nothing_at(tokens) {
        Read::No => checked_at(alloc, tokens),
        read => Ok(read),
    }
}

fn number_or_nothing(most: u8, tokens: &[Token]) -> Read<RawOperand>
    ensures { result ≡ or_nothing tokens.now (read_as operand.Constant (number_at most tokens.now)) }
{
    match nothing_at(tokens) {
        Read::No => at_constant(number_at(most, tokens)),
        read => read,
    }
}

fn constant_or_nothing(tokens: &[Token]) -> Read<RawOperand>
    ensures { result ≡ or_nothing tokens.now (any_constant_at tokens.now) }
{
    match nothing_at(tokens) {
        Read::No => any_constant_at(tokens),
        read => read,
    }
}

fn offset_or_nothing(tokens: &[Token]) -> Read<RawOperand>
    ensures { result ≡ or_nothing tokens.now (pointer_alone_at offset_at tokens.now) }
{
    match nothing_at(tokens) {
        Read::No => offset_alone_at(tokens),
        read => read,
    }
}

fn pointer_loaded_or_nothing(
    alloc: Global,
    register: Ar,
    tokens: &[Token],
) -> Result<Read<RawOperand>, NoMemory>
    ensures { IfOk result (λ read. read ≡ or_nothing tokens.now (pointer_loaded_at register tokens.now)) }
{
    match nothing_at(tokens) {
        Read::No => pointer_loaded_at(alloc, register, tokens),
        read => Ok(read),
    }
}

fn pointer_stored_or_nothing(
    alloc: Global,
    register: Ar,
    tokens: &[Token],
) -> Result<Read<RawOperand>, NoMemory>
    ensures { IfOk result (λ read. read ≡ or_nothing tokens.now (pointer_stored_at register tokens.now)) }
{
    match nothing_at(tokens) {
        Read::No => pointer_stored_at(alloc, register, tokens),
        read => Ok(read),
    }
}

/// Whether a word is one to four letters, digits or `_`, the first of them no digit.
fn is_label(word: &[u8]) -> bool
    ensures { result ≡ is_label word.now }
{
    match word {
        [first, rest @ ..] => rest.len() < 4 && !first.is_ascii_digit(),
        [] => false,
    }
}

/// Whether a token is a label.
pub fn is_label_word(token: &Token) -> bool
    ensures { result ≡ is_label_word token.now }
{
    is_word_kind(token) && is_label(token.text.as_slice())
}

/// A label as an operand.
fn label_at(alloc: Global, tokens: &[Token]) -> Result<Read<RawOperand>, NoMemory>
    ensures { IfOk result (λ read. read ≡ label_at tokens.now) }
{
    match tokens {
        [first, ..] if is_label_word(first) => {
            let label = name_of(alloc, first)?;
            Ok(Read::Fits(RawOperand::Label(label), 1))
        }
        _ => Ok(Read::No),
    }
}

/// An operand of a form that is neither a place, nor a name, nor a block.
fn plain_operand(shape: OperandForm, tokens: &[Token]) -> Read<RawOperand>
    requires { IsPlainForm shape }
    ensures { result ≡ operand_by shape tokens.now }
{
    match shape {
        OperandForm::Nothing => nothing_at(tokens),
        OperandForm::Number(most) => at_constant(number_at(most, tokens)),
        OperandForm::NumberOrNothing(most) => number_or_nothing(most, tokens),
        OperandForm::Addend => at_constant(addend_at(tokens)),
        OperandForm::ConstantOrNothing => constant_or_nothing(tokens),
        OperandForm::OffsetOrNothing => offset_or_nothing(tokens),
        OperandForm::TimerOrCounter => at_place(left_out_at(timers_and_counters(), tokens)),
        OperandForm::LeftOut(kind) => Read::LeftOut(kind),
        _ => Read::No,
    }
}

/// An operand of a form.
fn operand_by(
    alloc: Global,
    shape: OperandForm,
    tokens: &[Token],
) -> Result<Read<RawOperand>, NoMemory>
    ensures { IfOk result (λ read. read ≡ operand_by shape tokens.now) }
{
    match shape {
        OperandForm::Bit => located_at(alloc, tokens),
        OperandForm::Checked => checked_at(alloc, tokens),
        OperandForm::CheckedOrNothing => checked_or_nothing(alloc, tokens),
        OperandForm::Loaded => loaded_at(alloc, tokens),
        OperandForm::Stored => stored_at(alloc, tokens),
        OperandForm::PointerLoaded(register) => pointer_loaded_or_nothing(alloc, register, tokens),
        OperandForm::PointerStored(register) => pointer_stored_or_nothing(alloc, register, tokens),
        OperandForm::Opened => opened_at(alloc, tokens),
        OperandForm::Label => label_at(alloc, tokens),
        OperandForm::Called => called_at(alloc, tokens),
        OperandForm::CalledAlone => called_alone_at(alloc, tokens),
        OperandForm::Nothing
        | OperandForm::Number(_)
        | OperandForm::NumberOrNothing(_)
        | OperandForm::Addend
        | OperandForm::ConstantOrNothing
        | OperandForm::OffsetOrNothing
        | OperandForm::TimerOrCounter
        | OperandForm::LeftOut(_) => Ok(plain_operand(shape, tokens)),
    }
}

fn checked_form(check: Check) -> OperandForm
    ensures { result ≡ checked_form check }
{
    match check {
        Check::O => OperandForm::CheckedOrNothing,
        Check::A | Check::An | Check::On | Check::X | Check::Xn => OperandForm::Checked,
    }
}

/// The form of a mnemonic's operand.
fn operand_form_of(what: Mnemonic) -> OperandForm
    ensures { result ≡ operand_form_of what }
{
    match what {
        Mnemonic::Check(check) => checked_form(check),
        Mnemonic::Bracket(_)
        | Mnemonic::Close
        | Mnemonic::SetRlo
        | Mnemonic::ClearRlo
        | Mnemonic::NotRlo
        | Mnemonic::Save
        | Mnemonic::Arith(_)
        | Mnemonic::Compare(_, _)
        | Mnemonic::Rlda
        | Mnemonic::Rrda
        | Mnemonic::Unary(_)
        | Mnemonic::Tak
        | Mnemonic::ExchangeDb
        | Mnemonic::Push
        | Mnemonic::Pop
        | Mnemonic::ExchangeAr
        | Mnemonic::BlockEnd
        | Mnemonic::BlockEndIf => OperandForm::Nothing,
        Mnemonic::Assign
        | Mnemonic::Set
        | Mnemonic::Reset
        | Mnemonic::EdgeUp
        | Mnemonic::EdgeDown => OperandForm::Bit,
        Mnemonic::Load => OperandForm::Loaded,
        Mnemonic::Transfer => OperandForm::Stored,
        Mnemonic::Plus => OperandForm::Addend,
        Mnemonic::Inc | Mnemonic::Dec | Mnemonic::Nop => OperandForm::Number(255),
        Mnemonic::Shift(row) => OperandForm::NumberOrNothing(row.most_steps()),
        Mnemonic::Logic(_) => OperandForm::ConstantOrNothing,
        Mnemonic::LoadAr(register) => OperandForm::PointerLoaded(register),
        Mnemonic::StoreAr(register) => OperandForm::PointerStored(register),
        Mnemonic::AddAr(_) => OperandForm::OffsetOrNothing,
        Mnemonic::Open => OperandForm::Opened,
        Mnemonic::Jump(_) | Mnemonic::Loop | Mnemonic::JumpList => OperandForm::Label,
        Mnemonic::TimerOrCounter => OperandForm::TimerOrCounter,
        Mnemonic::Call => OperandForm::Called,
        Mnemonic::CallAlone | Mnemonic::CallIf => OperandForm::CalledAlone,
        Mnemonic::LeftOut(kind) => OperandForm::LeftOut(kind),
    }
}

/// The operand of an instruction.
pub fn operand_of(
    alloc: Global,
    what: Mnemonic,
    tokens: &[Token],
) -> Result<Read<RawOperand>, NoMemory>
    ensures { IfOk result (λ read. read ≡ operand_of what tokens.now) }
{
    operand_by(alloc, operand_form_of(what), tokens)
}
