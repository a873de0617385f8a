//! Reads the operands of calls.
ghost use Rattle.std.specs.Prelude.{◌≡◌, [], IfOk};
ghost use Rattle.stl_statement_grammar.specs.BlockNames.{name_at};
ghost use Rattle.stl_statement_grammar.specs.CallOperands.{actual, actual_at, actual_value_at, actuals_at, actuals_behind, begins_quoted, called, called_alone_at, called_at, function_alone, function_at, function_behind, function_call, indirect_block_at, instance_at, instance_behind, instance_call, instance_call_at, is_function_block, is_indirect_block, is_of_system, is_symbol, is_variable, left_out_if, left_out_place, variable_at};
ghost use Rattle.stl_statement_grammar.specs.LocatedOperands.{any_constant_at, place_operand};
ghost use Rattle.stl_statement_grammar.specs.Paths.{named_at};
ghost use Rattle.stl_statement_grammar.specs.Readers.{or_else, read_as};
ghost use Rattle.stl_tree.specs.declared.raw.RawOperand.TheVariants as operand;

use crate::located::{any_constant_at, at_constant, at_place, located_at, place_operand};
use s7_base::{Boxed, Kind, List, NoMemory, Token, rest_after};
use std::alloc::Global;
use stl_constants::{
    Next, begins_with_sign, further, is_quoted, is_sign, is_word, is_word_kind, next_of, one_more,
    truth_at,
};
use stl_places::{has_number, name_at, name_of, named_at};
use stl_statement_grammar::Read;
use stl_tree::{BlockKind, RawActual, RawCall, RawName, RawOperand};

/// A place or a name that is given to a formal.
fn place_given_at(alloc: Global, tokens: &[Token]) -> Result<Read<RawOperand>, NoMemory>
    ensures { IfOk result (λ read. read ≡ or_else (read_as operand.At (place_operand tokens.now)) (named_at tokens.now)) }
{
    match place_operand(tokens) {
        Read::No => named_at(alloc, tokens),
        read => Ok(at_place(read)),
    }
}

/// A constant that is no truth value, a place or a name that is given to a formal.
fn other_given_at(alloc: Global, tokens: &[Token]) -> Result<Read<RawOperand>, NoMemory>
    ensures { IfOk result (λ read. read
        ≡ or_else (any_constant_at tokens.now) (or_else (read_as operand.At (place_operand tokens.now)) (named_at tokens.now))) }
{
    match any_constant_at(tokens) {
        Read::No => place_given_at(alloc, tokens),
        read => Ok(read),
    }
}

/// What is given to a formal: a constant, a place, or a name.
fn actual_value_at(alloc: Global, tokens: &[Token]) -> Result<Read<RawOperand>, NoMemory>
    ensures { IfOk result (λ read. read ≡ actual_value_at tokens.now) }
{
    match truth_at(tokens) {
        Read::No => other_given_at(alloc, tokens),
        read => Ok(at_constant(read)),
    }
}

/// An actual, by the token that names its formal and what was read as its value.
fn actual_with(
    alloc: Global,
    name: &Token,
    read: Read<RawOperand>,
) -> Result<Read<RawActual>, NoMemory>
    ensures { IfOk result (λ found. found ≡ read_as (actual name.now) read) }
{
    match read {
        Read::Fits(value, size) => {
            let formal = name_of(alloc, name)?;
            let line = name.line;
            Ok(Read::Fits(
                RawActual {
                    formal,
                    line,
                    value,
                },
                size,
            ))
        }
        Read::LeftOut(kind) => Ok(Read::LeftOut(kind)),
        Read::No => Ok(Read::No),
    }
}

/// An actual: the name of its formal, `:=`, and what is given to it.
fn actual_at(alloc: Global, tokens: &[Token]) -> Result<Read<RawActual>, NoMemory>
    ensures { IfOk result (λ found. found ≡ actual_at tokens.now) }
{
    match tokens {
        [name, assign, rest @ ..] if is_word_kind(name) && is_sign(assign, ":=") => {
            let value = actual_value_at(alloc, rest)?;
            further(2, actual_with(alloc, name, value)?)
        }
        _ => Ok(Read::No),
    }
}

/// Actuals and the bracket after them.
fn actuals_behind(alloc: Global, tokens: &[Token]) -> Result<Read<List<RawActual>>, NoMemory>
    ensures { IfOk result (λ read. read ≡ actuals_behind tokens.now) }
{
    let mut actuals = List::new(alloc);
    let mut size = 0;
    let mut rest = tokens;
    while let [_, ..] = rest {
        match actual_at(alloc, rest)? {
            Read::Fits(actual, taken) => {
                actuals.push(actual)?;
                size = one_more(size, taken)?;
                match next_of(")", rest_after(rest, taken)) {
                    Next::End => return Ok(Read::Fits(actuals, size)),
                    Next::More => rest = rest_after(rest_after(rest, 1), taken),
                    Next::Other => return Ok(Read::No),
                }
            }
            Read::LeftOut(kind) => return Ok(Read::LeftOut(kind)),
            Read::No => return Ok(Read::No),
        }
    }
    Ok(Read::No)
}

/// The actuals of a call: none, or some in brackets.
fn actuals_at(alloc: Global, tokens: &[Token]) -> Result<Read<List<RawActual>>, NoMemory>
    ensures { IfOk result (λ read. read ≡ actuals_at tokens.now) }
{
    match tokens {
        [] => Ok(Read::Fits(List::new(alloc), 0)),
        [before, rest @ ..] if is_sign(before, "(") => further(1, actuals_behind(alloc, rest)?),
        _ => Ok(Read::No),
    }
}

/// A call of a block, of an instance where it has a data block.
fn called(
    alloc: Global,
    kind: BlockKind,
    block: RawName,
    db: Option<RawName>,
    actuals: List<RawActual>,
) -> Result<RawOperand, NoMemory>
    ensures { IfOk result (λ made. made ≡ operand.Call (called kind block db actuals)) }
{
    let call = RawCall {
        kind,
        block,
        db,
        actuals,
    };
    Ok(RawOperand::Call(Boxed::new(alloc, call)?))
}

/// A call of a function, by what was read as its actuals.
fn function_with(
    alloc: Global,
    name: RawName,
    read: Read<List<RawActual>>,
) -> Result<Read<RawOperand>, NoMemory>
    ensures { IfOk result (λ found. found ≡ read_as (function_call name) read) }
{
    match read {
        Read::Fits(actuals, size) => {
            let call = called(alloc, BlockKind::Fc, name, None, actuals)?;
            Ok(Read::Fits(call, size))
        }
        Read::LeftOut(kind) => Ok(Read::LeftOut(kind)),
        Read::No => Ok(Read::No),
    }
}

/// The actuals after the name of a function.
fn function_behind(
    alloc: Global,
    name: RawName,
    tokens: &[Token],
) -> Result<Read<RawOperand>, NoMemory>
    ensures { IfOk result (λ found. found ≡ function_behind name tokens.now) }
{
    let actuals = actuals_at(alloc, tokens)?;
    function_with(alloc, name, actuals)
}

/// A function and its actuals.
fn function_at(alloc: Global, tokens: &[Token]) -> Result<Read<RawOperand>, NoMemory>
    ensures { IfOk result (λ found. found ≡ function_at tokens.now) }
{
    match name_at(alloc, "FC", tokens)? {
        Read::Fits(name, size) => {
            further(
                size,
                function_behind(alloc, name, rest_after(tokens, size))?,
            )
        }
        Read::LeftOut(kind) => Ok(Read::LeftOut(kind)),
        Read::No => Ok(Read::No),
    }
}

/// The data block of an instance, after the comma.
fn instance_at(alloc: Global, tokens: &[Token]) -> Result<Read<RawName>, NoMemory>
    ensures { IfOk result (λ found. found ≡ instance_at tokens.now) }
{
    match tokens {
        [comma, rest @ ..] if is_sign(comma, ",") => further(1, name_at(alloc, "DB", rest)?),
        _ => Ok(Read::No),
    }
}

/// A call of a function block with its instance, by what was read as its actuals.
fn instance_with(
    alloc: Global,
    name: RawName,
    db: RawName,
    read: Read<List<RawActual>>,
) -> Result<Read<RawOperand>, NoMemory>
    ensures { IfOk result (λ found. found ≡ read_as (instance_call name db) read) }
{
    match read {
        Read::Fits(actuals, size) => {
            let call = called(alloc, BlockKind::Fb, name, Some(db), actuals)?;
            Ok(Read::Fits(call, size))
        }
        Read::LeftOut(kind) => Ok(Read::LeftOut(kind)),
        Read::No => Ok(Read::No),
    }
}

/// The actuals after the data block of an instance.
fn instance_actuals_at(
    alloc: Global,
    name: RawName,
    db: RawName,
    tokens: &[Token],
) -> Result<Read<RawOperand>, NoMemory>
    ensures { IfOk result (λ found. found ≡ read_as (instance_call name db) (actuals_at tokens.now)) }
{
    let actuals = actuals_at(alloc, tokens)?;
    instance_with(alloc, name, db, actuals)
}

/// The data block and the actuals after the name of a function block.
fn instance_behind(
    alloc: Global,
    name: RawName,
    tokens: &[Token],
) -> Result<Read<RawOperand>, NoMemory>
    ensures { IfOk result (λ found. found ≡ instance_behind name tokens.now) }
{
    match instance_at(alloc, tokens)? {
        Read::Fits(db, size) => {
            let rest = rest_after(tokens, size);
            further(size, instance_actuals_at(alloc, name, db, rest)?)
        }
        Read::LeftOut(kind) => Ok(Read::LeftOut(kind)),
        Read::No => Ok(Read::No),
    }
}

/// A function block, the data block of an instance, and its actuals.
fn instance_call_at(alloc: Global, tokens: &[Token]) -> Result<Read<RawOperand>, NoMemory>
    ensures { IfOk result (λ found. found ≡ instance_call_at tokens.now) }
{
    match name_at(alloc, "FB", tokens)? {
        Read::Fits(name, size) => {
            further(
                size,
                instance_behind(alloc, name, rest_after(tokens, size))?,
            )
        }
        Read::LeftOut(kind) => Ok(Read::LeftOut(kind)),
        Read::No => Ok(Read::No),
    }
}

/// Whether the tokens begin with a block of the system.
fn is_of_system(tokens: &[Token]) -> bool
    ensures { result ≡ is_of_system tokens.now }
{
    match tokens {
        [first, rest @ ..] => has_number("SFC", first, rest) || has_number("SFB", first, rest),
        [] => false,
    }
}

/// What is left out because of its kind, or nothing.
fn left_out_if(is_so: bool, kind: Kind) -> Read<RawOperand>
    ensures { result ≡ left_out_if is_so kind }
{
    if is_so { Read::LeftOut(kind) } else { Read::No }
}

fn is_variable(read: &Read<RawOperand>) -> bool
    ensures { result ≡ is_variable read.now }
{
    matches!(read, Read::Fits(RawOperand::Local(_), _))
}

/// An instance that is a variable of its block, which is not supported.
fn variable_at(alloc: Global, tokens: &[Token]) -> Result<Read<RawOperand>, NoMemory>
    ensures { IfOk result (λ found. found ≡ variable_at tokens.now) }
{
    let read = named_at(alloc, tokens)?;
    Ok(left_out_if(is_variable(&read), Kind::MultiInstance))
}

fn begins_quoted(tokens: &[Token]) -> bool
    ensures { result ≡ begins_quoted tokens.now }
{
    match tokens {
        [first, ..] => is_quoted(first),
        [] => false,
    }
}

/// Whether the tokens begin with a function block, by its number, its name or a number in memory.
fn is_function_block(first: &Token, rest: &[Token]) -> bool
    ensures { result ≡ is_function_block first.now rest.now }
{
    has_number("FB", first, rest)
        || (is_word(first, "FB") && (begins_quoted(rest) || begins_with_sign("[", rest)))
}

/// Whether the tokens begin with a function block, or with a number in memory, alone or as that of a function.
fn is_indirect_block(tokens: &[Token]) -> bool
    ensures { result ≡ is_indirect_block tokens.now }
{
    match tokens {
        [first, rest @ ..] => {
            is_function_block(first, rest)
                || (is_word(first, "FC") && begins_with_sign("[", rest))
                || is_sign(first, "[")
        }
        [] => false,
    }
}

fn is_symbol(operand: &RawOperand) -> bool
    ensures { result ≡ is_symbol operand.now }
{
    matches!(operand, RawOperand::Named(_))
}

/// What was read as a place or a name, where a block must be named by its number or its symbol.
fn left_out_place(read: Read<RawOperand>) -> Read<RawOperand>
    ensures { result ≡ left_out_place read }
{
    match read {
        Read::Fits(operand, _) => left_out_if(!is_symbol(&operand), Kind::IndirectBlock),
        Read::LeftOut(kind) => Read::LeftOut(kind),
        Read::No => Read::No,
    }
}

/// A block whose number is found at run time, which is not supported.
fn indirect_block_at(alloc: Global, tokens: &[Token]) -> Result<Read<RawOperand>, NoMemory>
    ensures { IfOk result (λ found. found ≡ indirect_block_at tokens.now) }
{
    if is_indirect_block(tokens) {
        Ok(Read::LeftOut(Kind::IndirectBlock))
    } else {
        Ok(left_out_place(located_at(alloc, tokens)?))
    }
}

/// A function without actuals, by what was read as its name.
fn function_alone(alloc: Global, read: Read<RawName>) -> Result<Read<RawOperand>, NoMemory>
    ensures { IfOk result (λ found. found ≡ read_as function_alone read) }
{
    match read {
        Read::Fits(name, size) => {
            let call = called(alloc, BlockKind::Fc, name, None, List::new(alloc))?;
            Ok(Read::Fits(call, size))
        }
        Read::LeftOut(kind) => Ok(Read::LeftOut(kind)),
        Read::No => Ok(Read::No),
    }
}

/// A function, or a function block and its instance, with their actuals.
fn block_called_at(alloc: Global, tokens: &[Token]) -> Result<Read<RawOperand>, NoMemory>
    ensures { IfOk result (λ found. found ≡ or_else (function_at tokens.now) (instance_call_at tokens.now)) }
{
    match function_at(alloc, tokens)? {
        Read::No => instance_call_at(alloc, tokens),
        read => Ok(read),
    }
}

/// The operand of CALL.
pub fn called_at(alloc: Global, tokens: &[Token]) -> Result<Read<RawOperand>, NoMemory>
    ensures { IfOk result (λ found. found ≡ called_at tokens.now) }
{
    if is_of_system(tokens) {
        return Ok(Read::LeftOut(Kind::SystemCall));
    }
    match variable_at(alloc, tokens)? {
        Read::No => block_called_at(alloc, tokens),
        read => Ok(read),
    }
}

/// The operand of UC and CC: a function without actuals.
pub fn called_alone_at(alloc: Global, tokens: &[Token]) -> Result<Read<RawOperand>, NoMemory>
    ensures { IfOk result (λ found. found ≡ called_alone_at tokens.now) }
{
    if is_of_system(tokens) {
        return Ok(Read::LeftOut(Kind::SystemCall));
    }
    match indirect_block_at(alloc, tokens)? {
        Read::No => function_alone(alloc, name_at(alloc, "FC", tokens)?),
        read => Ok(read),
    }
}
