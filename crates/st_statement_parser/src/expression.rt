//! Expressions while they are read.
ghost use Rattle.std.specs.Prelude.{◌≡◌, suc, ◌+◌, IfOk};
ghost use Rattle.st_grammar.specs.Grammar.{prefix_level, is_value, literal_tree, label_tree, prefix_tree, apply_tree};
ghost use Rattle.st_grammar.specs.inner.Machine.{code, of_literal, of_variable, of_prefix, of_infix, of_apply, of_shift, of_select};
ghost use Rattle.st_grammar.specs.inner.Steps.{shallower};
ghost use Rattle.st_statement_parser.specs.inner.BodyStates.{measured_of};
ghost use Rattle.st_tree.specs.Form.{infix_level};

use s7_base::{Boxed, Line, NoMemory};
use st_grammar::{Fixed, Literal, Measured, OneOperand, Prefix};
use st_tree::{BinaryOp, RawExpr, RawVar, ShiftOp, StType, UnaryOp};
use std::alloc::Global;

/// A number plus one; out of memory where that is above the greatest number.
pub fn one_more(number: usize) -> Result<usize, NoMemory>
    ensures sum { IfOk result (λ more. more ≡ 1 + number) }
    ensures next { IfOk result (λ more. more ≡ suc number) }
{
    number.checked_add(1).ok_or(NoMemory)
}

/// One level less.
pub fn shallower(depth: usize) -> usize
    ensures { result ≡ shallower depth }
{
    depth.saturating_sub(1)
}

/// The precedence of an operator before its operand, 0 the highest.
pub fn prefix_level(op: Prefix) -> u8
    ensures { result ≡ prefix_level op }
{
    match op {
        Prefix::Minus => 1,
        Prefix::Not => 2,
    }
}

/// Whether a literal has a value; a decimal without a type is a DINT.
pub fn is_value(literal: Literal) -> bool
    ensures { result ≡ is_value literal }
{
    match literal {
        Literal::Decimal(number) => number <= 2_147_483_647,
        Literal::Byte(_) | Literal::Typed(..) => true,
    }
}

/// The type and the value of a literal.
pub fn label_of(literal: Literal) -> (StType, i64)
    ensures { result ≡ label_tree literal }
{
    match literal {
        Literal::Decimal(number) => (StType::Dint, i64::from(number)),
        Literal::Byte(byte) => (StType::Dword, i64::from(byte)),
        Literal::Typed(ty, value) => (ty, value),
    }
}

/// A literal as an expression.
pub fn of_literal(literal: Literal) -> Measured
    ensures { result ≡ of_literal code literal }
{
    let (ty, value) = label_of(literal);
    Measured {
        tree: RawExpr::Literal(ty, value),
        height: 1,
    }
}

/// A variable that is read.
pub fn of_variable(var: RawVar, line: Line) -> Measured
    ensures { result ≡ of_variable code var line }
{
    Measured {
        tree: RawExpr::Read(var),
        height: 1,
    }
}

/// An expression that waits for what follows it, in the box in which a larger tree will have it, and its
/// height.
#[derive(Drop)]
pub struct BoxedExpression {
    pub tree: Boxed<RawExpr>,
    pub height: usize,
}

/// Puts an expression into its box.
pub fn box_expression(alloc: Global, operand: Measured) -> Result<BoxedExpression, NoMemory>
    ensures { IfOk result (λ found. measured_of found ≡ operand) }
{
    Ok(BoxedExpression {
        tree: Boxed::new(alloc, operand.tree)?,
        height: operand.height,
    })
}

/// An expression that has ended, and the word or the sign at which it did.
#[derive(Drop)]
pub struct EndedExpression {
    pub value: Measured,
    pub word: Fixed,
}

/// `-` or NOT on an operand.
pub fn of_prefix(alloc: Global, op: Prefix, operand: Measured) -> Result<Measured, NoMemory>
    ensures { IfOk result (λ whole. whole ≡ of_prefix code op operand) }
{
    let operand = box_expression(alloc, operand)?;
    let height = one_more(operand.height)?;
    let inner = operand.tree;
    let tree = match op {
        Prefix::Minus => RawExpr::Unary(UnaryOp::Minus, inner),
        Prefix::Not => RawExpr::Unary(UnaryOp::Not, inner),
    };
    Ok(Measured { tree, height })
}

/// An operator between two operands.
pub fn of_infix(
    alloc: Global,
    op: BinaryOp,
    left: BoxedExpression,
    right: Measured,
) -> Result<Measured, NoMemory>
    ensures { IfOk result (λ whole. whole ≡ of_infix code op (measured_of left) right) }
{
    let right = box_expression(alloc, right)?;
    let height = one_more(left.height.max(right.height))?;
    Ok(Measured {
        tree: RawExpr::Binary(op, left.tree, right.tree),
        height,
    })
}

/// A function of one operand.
pub fn of_apply(alloc: Global, op: OneOperand, operand: Measured) -> Result<Measured, NoMemory>
    ensures { IfOk result (λ whole. whole ≡ of_apply code op operand) }
{
    let operand = box_expression(alloc, operand)?;
    let height = one_more(operand.height)?;
    let inner = operand.tree;
    let tree = match op {
        OneOperand::Convert(from, to) => RawExpr::Convert(from, to, inner),
        OneOperand::BcdToInt => RawExpr::Unary(UnaryOp::BcdToInt, inner),
        OneOperand::BcdToDint => RawExpr::Unary(UnaryOp::BcdToDint, inner),
        OneOperand::AreaRead(width) => RawExpr::AreaRead(width, inner),
    };
    Ok(Measured { tree, height })
}

/// A shift or a rotation of a pattern by a count.
pub fn of_shift(
    alloc: Global,
    op: ShiftOp,
    pattern: BoxedExpression,
    count: Measured,
) -> Result<Measured, NoMemory>
    ensures { IfOk result (λ whole. whole ≡ of_shift code op (measured_of pattern) count) }
{
    let count = box_expression(alloc, count)?;
    let height = one_more(pattern.height.max(count.height))?;
    Ok(Measured {
        tree: RawExpr::Shift(op, pattern.tree, count.tree),
        height,
    })
}

/// SEL of a BOOL and two values.
pub fn of_select(
    alloc: Global,
    gate: BoxedExpression,
    first: BoxedExpression,
    second: Measured,
) -> Result<Measured, NoMemory>
    ensures { IfOk result (λ whole. whole ≡ of_select code (measured_of gate) (measured_of first) second) }
{
    let second = box_expression(alloc, second)?;
    let height = one_more(gate.height.max(first.height).max(second.height))?;
    Ok(Measured {
        tree: RawExpr::Select(gate.tree, first.tree, second.tree),
        height,
    })
}
