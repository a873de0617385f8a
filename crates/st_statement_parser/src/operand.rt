//! Steps of the parser in expressions.
ghost use Rattle.std.specs.Prelude.{◌≡◌, IfOk};
ghost use Rattle.st_grammar.specs.inner.Machine.{code};
ghost use Rattle.st_grammar.specs.inner.Steps.{limit, reduce, reduced_to, function_argument, with_prefix, at_operand, at_opening, close_argument, next_argument, argument_closed, expression_end, at_operator};
ghost use Rattle.st_grammar.specs.declared.kind.GrammarKind.TheVariants as kind;
ghost use Rattle.st_statement_parser.specs.inner.BodyStates.{argument_of, binds, leads_to, stack_of};

use crate::body_state::{Argument, BodyState, Frame};
use crate::expression::{
    EndedExpression, box_expression, is_value, of_apply, of_infix, of_literal, of_prefix,
    of_select, of_shift, of_variable, prefix_level,
};
use crate::need::need_closed;
use s7_base::NoMemory;
use st_grammar::{Fixed, Function, GrammarKind, Measured, Prefix};
use st_tree::{BinaryOp, infix_level_of};
use std::alloc::Global;

/// The lowest precedence, that of OR.
const WEAKEST: u8 = 9;

/// The lowest precedence that an operator of the operand here may have.
fn limit(frames: &[Frame]) -> u8
    ensures { result ≡ limit code (stack_of frames.now) }
{
    match frames.last() {
        Some(Frame::Unary(op)) => prefix_level(*op),
        Some(Frame::Left(op, _)) => infix_level_of(*op) - 1,
        _ => WEAKEST,
    }
}

/// Whether the frame that was opened last is an operator that binds as tightly as a level, or more.
fn binds(frames: &[Frame], level: u8) -> bool
    ensures { result ≡ binds level (stack_of frames.now) }
{
    match frames.last() {
        Some(Frame::Unary(op)) => prefix_level(*op) <= level,
        Some(Frame::Left(op, _)) => infix_level_of(*op) <= level,
        _ => false,
    }
}

/// The operand takes the operators before it that bind as tightly as a level, or more. There are at most as
/// many as levels of precedence and levels of nesting.
fn reduce(
    alloc: Global,
    at: &mut BodyState,
    level: u8,
    operand: Measured,
) -> Result<Measured, NoMemory>
    ensures { IfOk result (λ whole. reduced_to code at.new.depth (stack_of at.new.frames) whole
        ≡ reduce code level at.old.depth (stack_of at.old.frames) operand) }
{
    if !binds(at.frames.as_slice(), level) {
        return Ok(operand);
    }
    match at.frames.pop() {
        Some(Frame::Unary(op)) => {
            let whole = of_prefix(alloc, op, operand)?;
            at.rise();
            reduce(alloc, at, level, whole)
        }
        Some(Frame::Left(op, left)) => {
            let whole = of_infix(alloc, op, left, operand)?;
            reduce(alloc, at, level, whole)
        }
        _ => unreachable!(),
    }
}

fn function_argument(function: Function) -> Argument
    ensures { argument_of result ≡ function_argument code function }
{
    match function {
        Function::One(op) => Argument::Only(op),
        Function::Shift(op) => Argument::Shifted(op),
        Function::Select => Argument::Gate,
    }
}

fn with_prefix(at: &mut BodyState, op: Prefix) -> Result<bool, NoMemory>
    ensures { IfOk result (λ goes. leads_to goes at.new ≡ with_prefix code at.old.depth (stack_of at.old.frames) op) }
{
    if prefix_level(op) > limit(at.frames.as_slice()) {
        return Ok(false);
    }
    at.expect(Frame::Unary(op))?;
    at.deepen()?;
    Ok(true)
}

/// A word or a sign where an operand must begin.
fn at_operand_word(at: &mut BodyState, word: Fixed) -> Result<bool, NoMemory>
    ensures { IfOk result (λ goes. leads_to goes at.new
        ≡ at_operand code at.old.depth (stack_of at.old.frames) (kind.Fixed word)) }
{
    match word {
        Fixed::Function(function) => {
            at.go_opening(function);
            Ok(true)
        }
        Fixed::Not => with_prefix(at, Prefix::Not),
        Fixed::Between(BinaryOp::Sub) => with_prefix(at, Prefix::Minus),
        Fixed::Open => {
            at.expect(Frame::Bracket)?;
            at.deepen()?;
            Ok(true)
        }
        _ => Ok(false),
    }
}

/// A token where an operand must begin.
pub fn at_operand(at: &mut BodyState, kind: GrammarKind) -> Result<bool, NoMemory>
    ensures { IfOk result (λ goes. leads_to goes at.new ≡ at_operand code at.old.depth (stack_of at.old.frames) kind) }
{
    match kind {
        GrammarKind::Literal(literal) => {
            if !is_value(literal) {
                return Ok(false);
            }
            at.go_operator(of_literal(literal));
            Ok(true)
        }
        GrammarKind::Variable(var, line) => {
            at.go_operator(of_variable(var, line));
            Ok(true)
        }
        GrammarKind::Fixed(word) => at_operand_word(at, word),
        _ => Ok(false),
    }
}

/// The bracket after the word of a function, the one token that may follow it.
pub fn at_opening(
    at: &mut BodyState,
    function: Function,
    kind: GrammarKind,
) -> Result<bool, NoMemory>
    ensures { IfOk result (λ goes. leads_to goes at.new
        ≡ at_opening code at.old.depth (stack_of at.old.frames) function kind) }
{
    let GrammarKind::Fixed(Fixed::Open) = kind else {
        return Ok(false);
    };
    at.expect(Frame::Argument(function_argument(function)))?;
    at.deepen()?;
    Ok(true)
}

/// The last operand of a function ends.
fn close_argument(
    alloc: Global,
    at: &mut BodyState,
    argument: Argument,
    operand: Measured,
) -> Result<bool, NoMemory>
    ensures { IfOk result (λ goes. leads_to goes at.new
        ≡ close_argument code at.old.depth (stack_of at.old.frames) (argument_of argument) operand) }
{
    let whole = match argument {
        Argument::Only(op) => of_apply(alloc, op, operand)?,
        Argument::ShiftedBy(op, pattern) => of_shift(alloc, op, pattern, operand)?,
        Argument::Second(gate, first) => of_select(alloc, gate, first, operand)?,
        other => {
            drop(other);
            drop(operand);
            return Ok(false);
        }
    };
    at.rise();
    at.go_operator(whole);
    Ok(true)
}

/// An operand of a function ends before another.
fn next_argument(
    alloc: Global,
    at: &mut BodyState,
    argument: Argument,
    operand: Measured,
) -> Result<bool, NoMemory>
    ensures { IfOk result (λ goes. leads_to goes at.new
        ≡ next_argument code at.old.depth (stack_of at.old.frames) (argument_of argument) operand) }
{
    let operand = box_expression(alloc, operand)?;
    let next = match argument {
        Argument::Shifted(op) => Argument::ShiftedBy(op, operand),
        Argument::Gate => Argument::First(operand),
        Argument::First(gate) => Argument::Second(gate, operand),
        other => {
            drop(other);
            return Ok(false);
        }
    };
    at.expect(Frame::Argument(next))?;
    Ok(true)
}

/// An operand of a function ends.
fn argument_closed(
    alloc: Global,
    at: &mut BodyState,
    argument: Argument,
    operand: Measured,
    word: Fixed,
) -> Result<bool, NoMemory>
    ensures { IfOk result (λ goes. leads_to goes at.new
        ≡ argument_closed code at.old.depth (stack_of at.old.frames) (argument_of argument) operand (kind.Fixed word)) }
{
    match word {
        Fixed::Close => close_argument(alloc, at, argument, operand),
        Fixed::Comma => next_argument(alloc, at, argument, operand),
        _ => {
            drop((argument, operand));
            Ok(false)
        }
    }
}

/// An expression ends at a token that is no operator.
fn expression_end(
    alloc: Global,
    at: &mut BodyState,
    value: Measured,
    kind: GrammarKind,
) -> Result<bool, NoMemory>
    ensures { IfOk result (λ goes. leads_to goes at.new
        ≡ expression_end code at.old.depth (stack_of at.old.frames) value kind) }
{
    let frame = at.frames.pop();
    let GrammarKind::Fixed(word) = kind else {
        drop(frame);
        drop(value);
        return Ok(false);
    };
    match frame {
        Some(Frame::Bracket) => {
            let Fixed::Close = word else {
                drop(value);
                return Ok(false);
            };
            at.rise();
            at.go_operator(value);
            Ok(true)
        }
        Some(Frame::Argument(argument)) => argument_closed(alloc, at, argument, value, word),
        Some(Frame::Waiting(begun, need)) => {
            need_closed(alloc, at, begun, need, EndedExpression { value, word })
        }
        other => {
            drop(other);
            drop(value);
            Ok(false)
        }
    }
}

/// A token after an operand: an operator between operands, or one that ends the expression.
pub fn at_operator(
    alloc: Global,
    at: &mut BodyState,
    operand: Measured,
    kind: GrammarKind,
) -> Result<bool, NoMemory>
    ensures { IfOk result (λ goes. leads_to goes at.new
        ≡ at_operator code at.old.depth (stack_of at.old.frames) operand kind) }
{
    if let GrammarKind::Fixed(Fixed::Between(op)) = kind {
        let left = reduce(alloc, at, infix_level_of(op), operand)?;
        at.expect(Frame::Left(op, box_expression(alloc, left)?))?;
        return Ok(true);
    }
    let whole = reduce(alloc, at, WEAKEST, operand)?;
    expression_end(alloc, at, whole, kind)
}
