//! Reads one statement.
ghost use Rattle.std.specs.Prelude.{◌≡◌, IfOk, length};
ghost use Rattle.s7_base.specs.Answers.{Answers};
ghost use Rattle.stl_statement_grammar.specs.Statements.{begins_with_label, name_of, instr_with, on_line, with_operand, with_mnemonic, statement, instruction_of};
ghost use Rattle.stl_statement_grammar.specs.Mnemonics.{mnemonic_at};
ghost use Rattle.stl_instructions.specs.inner.Answers.{Says};
ghost use Rattle.stl_mnemonics.specs.Rows.{view};

use crate::operand::{is_label_word, operand_of, size_with};
use s7_base::{Line, List, NoMemory, Reason, Rejection, SmallText, Token, rest_after};
use std::alloc::Global;
use stl_constants::is_sign;
use stl_mnemonics::{Row, mnemonic_at};
use stl_places::name_of as name_of_token;
use stl_statement_grammar::Read;
use stl_tree::{RawInstr, RawOp, RawOperand};

/// Whether the tokens begin with a label and its colon.
pub fn begins_with_label(tokens: &[Token]) -> bool
    ensures { result ≡ begins_with_label tokens.now }
{
    match tokens {
        [first, second, ..] => is_label_word(first) && is_sign(second, ":"),
        _ => false,
    }
}

/// The name of a mnemonic.
fn name_of(alloc: Global, row: Row) -> Result<SmallText, NoMemory>
    ensures { IfOk result (λ name. name ≡ name_of (view row)) }
{
    if row.1.is_empty() {
        return SmallText::new(alloc, row.0.as_bytes());
    }
    let mut name = Vec::from_slice(alloc, row.0.as_bytes())?;
    name.extend_from_slice(row.1.as_bytes())?;
    SmallText::new(alloc, name.as_slice())
}

/// A mnemonic with the operand that was read, which must take all tokens after the mnemonic.
fn with_operand(row: Row, size: usize, read: Read<RawOperand>) -> Result<(Row, RawOperand), Reason>
    ensures { Says result (with_operand (name_of (view row)) size read) }
{
    match read {
        Read::Fits(operand, taken) if taken == size => Ok((row, operand)),
        Read::LeftOut(kind) => Err(Reason::Unsupported(kind)),
        _ => Err(Reason::BadStatement),
    }
}

/// The mnemonic and the operand of a statement without its label, or the rule that its tokens break. The
/// word before a colon is no mnemonic.
fn statement(alloc: Global, tokens: &[Token]) -> Result<Result<(Row, RawOperand), Reason>, NoMemory>
    ensures { IfOk result (λ said. Says said (statement tokens.now)) }
{
    if begins_with_label(tokens) {
        return Ok(Err(Reason::BadStatement));
    }
    unlabelled_statement(alloc, tokens)
}

fn unlabelled_statement(
    alloc: Global,
    tokens: &[Token],
) -> Result<Result<(Row, RawOperand), Reason>, NoMemory>
    ensures { IfOk result (λ said. Says said (with_mnemonic tokens.now (mnemonic_at tokens.now))) }
{
    match mnemonic_at(tokens) {
        Some(row) => {
            let behind = rest_after(tokens, size_with(row.1));
            let read = operand_of(alloc, row.2, behind)?;
            Ok(with_operand(row, behind.len(), read))
        }
        None => Ok(Err(Reason::BadStatement)),
    }
}

/// An instruction on a line.
fn instr_with(
    alloc: Global,
    label: Option<List<u8>>,
    line: Line,
    row: Row,
    operand: RawOperand,
) -> Result<RawInstr, NoMemory>
    ensures { IfOk result (λ instr. instr ≡ instr_with label line (name_of (view row)) operand) }
{
    let mnemonic = name_of(alloc, row)?;
    Ok(RawInstr {
        label,
        line,
        op: RawOp { mnemonic, operand },
    })
}

/// The instruction with a label, or without one, on a line, by the tokens after the label.
fn instruction_on(
    alloc: Global,
    label: Option<List<u8>>,
    line: Line,
    tokens: &[Token],
) -> Result<RawInstr, Rejection>
    ensures { Answers result (on_line label line (statement tokens.now)) }
{
    match statement(alloc, tokens)? {
        Ok((row, operand)) => Ok(instr_with(alloc, label, line, row, operand)?),
        Err(reason) => Err(Rejection::Refused(line, reason)),
    }
}

/// The instruction that the tokens of one statement are, without its `;`.
#[tactic(auto, unfolding(stl_statement_grammar::specs::Statements::instruction_of))]
pub fn instruction(alloc: Global, tokens: &[Token]) -> Result<RawInstr, Rejection>
    ensures { Answers result (instruction_of tokens.now) }
{
    let [first, ..] = tokens else {
        return Err(Rejection::Refused(Line(1), Reason::BadStatement));
    };
    if begins_with_label(tokens) {
        let label = name_of_token(alloc, first)?;
        instruction_on(alloc, Some(label), first.line, rest_after(tokens, 2))
    } else {
        instruction_on(alloc, None, first.line, tokens)
    }
}
