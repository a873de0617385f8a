//! Templates of the instructions that convert ACCU1 without decimal digits: ITD, INVI, INVD, CAW and CAD.
ghost use Rattle.std.specs.Prelude.{◌≡◌, ◌++◌, IfOk, OnOk};
ghost use Rattle.accumulator_templates.specs.Conversions.{byte_above_of, byte_moved_of, cad_of, caw_of, invd_of, invi_of, itd_of, low_byte_of, lowest_byte_moved, reversed_value, constant_shift_of, three_reversed, two_reversed};

use crate::parts::{lowest_bits, zero_extension};
use s7_base::{List, NoMemory, Reg, Width};
use st_tree::{Expr, ShiftOp, StType, Stmt};
use std::alloc::Global;
use template_parts::{constant, convert, not, or, read, set_register, shift, with_low};

/// The statements of `ITD`.
pub fn push_itd(alloc: Global, steps: &mut List<Stmt>) -> Result<(), NoMemory>
    ensures { OnOk result (steps.new ≡ steps.old ++ itd_of) }
{
    let number = convert(alloc, StType::Dword, StType::Int, read(Reg::Accu1))?;
    let wide = convert(alloc, StType::Int, StType::Dword, number)?;
    steps.push(set_register(Reg::Accu1, wide))
}

/// The statements of `INVI`.
pub fn push_invi(alloc: Global, steps: &mut List<Stmt>) -> Result<(), NoMemory>
    ensures { OnOk result (steps.new ≡ steps.old ++ invi_of) }
{
    let word = lowest_bits(alloc, Width::Word, read(Reg::Accu1))?;
    let inverted = not(alloc, word)?;
    let whole = with_low(alloc, inverted)?;
    steps.push(set_register(Reg::Accu1, whole))
}

/// The statements of `INVD`.
pub fn push_invd(alloc: Global, steps: &mut List<Stmt>) -> Result<(), NoMemory>
    ensures { OnOk result (steps.new ≡ steps.old ++ invd_of) }
{
    steps.push(set_register(Reg::Accu1, not(alloc, read(Reg::Accu1))?))
}

/// The statements of `CAW`.
pub fn push_caw(alloc: Global, steps: &mut List<Stmt>) -> Result<(), NoMemory>
    ensures { OnOk result (steps.new ≡ steps.old ++ caw_of) }
{
    let word = lowest_bits(alloc, Width::Word, read(Reg::Accu1))?;
    let turned = constant_shift(alloc, ShiftOp::Rol, word, 8)?;
    let whole = with_low(alloc, turned)?;
    steps.push(set_register(Reg::Accu1, whole))
}

/// The statements of `CAD`.
pub fn push_cad(alloc: Global, steps: &mut List<Stmt>) -> Result<(), NoMemory>
    ensures { OnOk result (steps.new ≡ steps.old ++ cad_of) }
{
    let value = reversed_value(alloc)?;
    steps.push(set_register(Reg::Accu1, value))
}

/// The bytes of ACCU1 in reverse order.
fn reversed_value(alloc: Global) -> Result<Expr, NoMemory>
    ensures { IfOk result (λ value. value ≡ reversed_value) }
{
    let three = three_reversed(alloc)?;
    let lowest = byte_above(alloc, 24)?;
    or(alloc, three, lowest)
}

/// The three lower bytes of ACCU1 in reverse order, in the three higher bytes of a DWORD.
fn three_reversed(alloc: Global) -> Result<Expr, NoMemory>
    ensures { IfOk result (λ value. value ≡ three_reversed) }
{
    let two = two_reversed(alloc)?;
    let third = byte_moved(alloc, 16, 8)?;
    or(alloc, two, third)
}

/// The two lower bytes of ACCU1 in reverse order, in the two higher bytes of a DWORD.
fn two_reversed(alloc: Global) -> Result<Expr, NoMemory>
    ensures { IfOk result (λ value. value ≡ two_reversed) }
{
    let first = lowest_byte_moved(alloc)?;
    let second = byte_moved(alloc, 8, 16)?;
    or(alloc, first, second)
}

/// The lowest byte of ACCU1, moved to the highest byte.
fn lowest_byte_moved(alloc: Global) -> Result<Expr, NoMemory>
    ensures { IfOk result (λ value. value ≡ lowest_byte_moved) }
{
    let byte = low_byte(alloc, read(Reg::Accu1))?;
    constant_shift(alloc, ShiftOp::Shl, byte, 24)
}

/// The byte of ACCU1 that begins at bit `from`, moved to bit `to`.
fn byte_moved(alloc: Global, from: u8, to: u8) -> Result<Expr, NoMemory>
    ensures { IfOk result (λ value. value ≡ byte_moved_of from to) }
{
    let byte = byte_above(alloc, from)?;
    constant_shift(alloc, ShiftOp::Shl, byte, to)
}

/// The byte of ACCU1 that begins at bit `bits`, as a DWORD.
fn byte_above(alloc: Global, bits: u8) -> Result<Expr, NoMemory>
    ensures { IfOk result (λ value. value ≡ byte_above_of bits) }
{
    let pattern = constant_shift(alloc, ShiftOp::Shr, read(Reg::Accu1), bits)?;
    low_byte(alloc, pattern)
}

/// The lowest byte of a DWORD, as a DWORD.
fn low_byte(alloc: Global, pattern: Expr) -> Result<Expr, NoMemory>
    ensures { IfOk result (λ value. value ≡ low_byte_of pattern) }
{
    let byte = lowest_bits(alloc, Width::Byte, pattern)?;
    zero_extension(alloc, Width::Byte, byte)
}

/// A pattern, shifted or rotated by a constant.
fn constant_shift(alloc: Global, op: ShiftOp, pattern: Expr, count: u8) -> Result<Expr, NoMemory>
    ensures { IfOk result (λ value. value ≡ constant_shift_of op pattern count) }
{
    shift(alloc, op, pattern, constant(StType::Int, i64::from(count)))
}
