//! Expressions and assignments.
ghost use Rattle.std.specs.Prelude.{◌≡◌, ◌++◌, IfOk, OnOk};
ghost use Rattle.template_parts.specs.Builders.{and_of, binary_of, clear_or, constant_of, convert_of, literal_of, local_of, not_of, or_of, read_of, select_of, set_local_of, set_of, shift_of, unary_of, xor_of, with_low_of};

use s7_base::{Boxed, List, NoMemory, Reg};
use st_tree::{BinaryOp, Expr, ShiftOp, StType, Stmt, UnaryOp, Var};
use std::alloc::Global;

/// The value of a register.
pub fn read(register: Reg) -> Expr
    ensures { result ≡ read_of register }
{
    Expr::Read(Var::Register(register))
}

/// The value of a local.
pub fn local(index: u32) -> Expr
    ensures { result ≡ local_of index }
{
    Expr::Read(Var::Local(index))
}

/// A number of a type.
pub fn constant(ty: StType, number: i64) -> Expr
    ensures { result ≡ constant_of ty number }
{
    Expr::Literal(ty, number)
}

/// The literal TRUE or FALSE.
pub fn literal(value: bool) -> Expr
    ensures { result ≡ literal_of value }
{
    Expr::Literal(StType::Bool, i64::from(value))
}

/// An operator or a function of one operand.
pub fn unary(alloc: Global, op: UnaryOp, operand: Expr) -> Result<Expr, NoMemory>
    ensures { IfOk result (λ value. value ≡ unary_of op operand) }
{
    Ok(Expr::Unary(op, Boxed::new(alloc, operand)?))
}

pub fn not(alloc: Global, operand: Expr) -> Result<Expr, NoMemory>
    ensures { IfOk result (λ value. value ≡ not_of operand) }
{
    unary(alloc, UnaryOp::Not, operand)
}

/// An operator between two operands.
pub fn binary(alloc: Global, op: BinaryOp, left: Expr, right: Expr) -> Result<Expr, NoMemory>
    ensures { IfOk result (λ value. value ≡ binary_of op left right) }
{
    let (left, right) = box_both(alloc, left, right)?;
    Ok(Expr::Binary(op, left, right))
}

pub fn and(alloc: Global, left: Expr, right: Expr) -> Result<Expr, NoMemory>
    ensures { IfOk result (λ value. value ≡ and_of left right) }
{
    binary(alloc, BinaryOp::And, left, right)
}

pub fn or(alloc: Global, left: Expr, right: Expr) -> Result<Expr, NoMemory>
    ensures { IfOk result (λ value. value ≡ or_of left right) }
{
    binary(alloc, BinaryOp::Or, left, right)
}

pub fn xor(alloc: Global, left: Expr, right: Expr) -> Result<Expr, NoMemory>
    ensures { IfOk result (λ value. value ≡ xor_of left right) }
{
    binary(alloc, BinaryOp::Xor, left, right)
}

/// A conversion from a type to another.
pub fn convert(alloc: Global, from: StType, to: StType, operand: Expr) -> Result<Expr, NoMemory>
    ensures { IfOk result (λ value. value ≡ convert_of from to operand) }
{
    Ok(Expr::Convert(from, to, Boxed::new(alloc, operand)?))
}

/// SEL: the second of the two where the gate is TRUE.
pub fn select(alloc: Global, gate: Expr, first: Expr, second: Expr) -> Result<Expr, NoMemory>
    ensures { IfOk result (λ value. value ≡ select_of gate first second) }
{
    let parts = box_both(alloc, first, second)?;
    select_boxes(alloc, gate, parts)
}

/// SEL of two operands that are in their boxes.
fn select_boxes(
    alloc: Global,
    gate: Expr,
    parts: (Boxed<Expr>, Boxed<Expr>),
) -> Result<Expr, NoMemory>
    ensures { IfOk result (λ value. value ≡ select_of gate parts.0 parts.1) }
{
    let gate = Boxed::new(alloc, gate)?;
    let (first, second) = parts;
    Ok(Expr::Select(gate, first, second))
}

/// A shift or a rotation by a count.
pub fn shift(alloc: Global, op: ShiftOp, operand: Expr, count: Expr) -> Result<Expr, NoMemory>
    ensures { IfOk result (λ value. value ≡ shift_of op operand count) }
{
    let (operand, count) = box_both(alloc, operand, count)?;
    Ok(Expr::Shift(op, operand, count))
}

/// A register takes a value.
pub fn set_register(register: Reg, value: Expr) -> Stmt
    ensures { result ≡ set_of register value }
{
    Stmt::Assign(Var::Register(register), value)
}

/// A local takes a value.
pub fn set_local(index: u32, value: Expr) -> Stmt
    ensures { result ≡ set_local_of index value }
{
    Stmt::Assign(Var::Local(index), value)
}

/// OR is cleared, and NFC set or not.
pub fn push_clear_or(steps: &mut List<Stmt>, nfc: bool) -> Result<(), NoMemory>
    ensures { OnOk result (steps.new ≡ steps.old ++ clear_or nfc) }
{
    steps.push(set_register(Reg::Orb, literal(false)))?;
    steps.push(set_register(Reg::Nfc, literal(nfc)))
}

/// ACCU1 with a WORD for its low word.
pub fn with_low(alloc: Global, word: Expr) -> Result<Expr, NoMemory>
    ensures { IfOk result (λ value. value ≡ with_low_of word) }
{
    let low = convert(alloc, StType::Word, StType::Dword, word)?;
    let high = bits_under(alloc, Reg::Accu1, 0xFFFF_0000)?;
    or(alloc, high, low)
}

/// The bits of a register that a mask has.
pub fn bits_under(alloc: Global, register: Reg, mask: i64) -> Result<Expr, NoMemory>
    ensures { IfOk result (λ value. value ≡ and_of (read_of register) (constant_of StType.Dword mask)) }
{
    and(alloc, read(register), constant(StType::Dword, mask))
}

/// Two parts of an expression, each in a box.
pub fn box_both(
    alloc: Global,
    first: Expr,
    second: Expr,
) -> Result<(Boxed<Expr>, Boxed<Expr>), NoMemory>
    ensures { IfOk result (λ pair. pair ≡ (first, second)) }
{
    let first = Boxed::new(alloc, first)?;
    let second = Boxed::new(alloc, second)?;
    Ok((first, second))
}
