//! The parts of the statements of shifts and rotations.
ghost use Rattle.std.specs.Prelude.{◌≡◌, ◌<◌, ◌+◌, ◌^◌, ◌++◌, IfOk, OnOk};
ghost use Rattle.template_parts.specs.Builders.{local_of, not_of, shift_of};
ghost use Rattle.shift_templates.specs.ShiftParts.{accu1_with, cleared_where, count_in_accu2, count_of, count_locals, flags_set, flags_set_where, has_bit, one_less, operand_of, shown_bit, signed_shift, top_bit};
ghost use Rattle.st_tree.specs.declared.expr.ShiftOp.TheVariants as shift;

use s7_base::{List, NoMemory, Reg, Width};
use st_tree::{BinaryOp, Expr, ShiftOp, StType, Stmt, type_of_width};
use std::alloc::Global;
use template_parts::{
    and, binary, constant, convert, literal, local, not, read, select, set_local, set_register,
    shift, with_low,
};

/// What is shifted: the low word of ACCU1, or the whole of it.
pub fn operand(alloc: Global, width: Width) -> Result<Expr, NoMemory>
    ensures { IfOk result (λ e. e ≡ operand_of width) }
{
    match width {
        Width::Word => convert(alloc, StType::Dword, StType::Word, read(Reg::Accu1)),
        Width::Bit | Width::Byte | Width::Dword => Ok(read(Reg::Accu1)),
    }
}

/// ACCU1 with a pattern in the place of what was shifted.
pub fn accu1_with(alloc: Global, width: Width, pattern: Expr) -> Result<Expr, NoMemory>
    ensures { IfOk result (λ e. e ≡ accu1_with width pattern) }
{
    match width {
        Width::Word => with_low(alloc, pattern),
        Width::Bit | Width::Byte | Width::Dword => Ok(pattern),
    }
}

/// The number of the highest bit of a width.
pub fn top_bit(width: Width) -> u32
    ensures { result ≡ top_bit width }
{
    match width {
        Width::Word => 0x8000,
        Width::Bit | Width::Byte | Width::Dword => 0x8000_0000,
    }
}

/// The number of the bit that shows what was shifted out last.
pub fn shown_bit(op: ShiftOp, width: Width) -> u32
    ensures { result ≡ shown_bit op width }
{
    match op {
        ShiftOp::Shl | ShiftOp::Ror => top_bit(width),
        ShiftOp::Shr | ShiftOp::Rol => 1,
    }
}

/// Whether a pattern of a width has this bit.
pub fn has_bit(alloc: Global, width: Width, bit: u32, pattern: Expr) -> Result<Expr, NoMemory>
    ensures { IfOk result (λ e. e ≡ has_bit width bit pattern) }
{
    let ty = type_of_width(width);
    let masked = and(alloc, pattern, constant(ty, i64::from(bit)))?;
    binary(alloc, BinaryOp::Ne, masked, constant(ty, 0))
}

/// A local's pattern, shifted to the right, with zeros shifted in.
fn plain_shift(alloc: Global, pattern: u32, count: &Expr) -> Result<Expr, NoMemory>
    ensures { IfOk result (λ e. e ≡ shift_of shift.Shr (local_of pattern) count.now) }
{
    let count = count.copy(alloc)?;
    shift(alloc, ShiftOp::Shr, local(pattern), count)
}

/// A local's pattern, shifted to the right, with ones shifted in.
fn inverted_shift(alloc: Global, pattern: u32, count: &Expr) -> Result<Expr, NoMemory>
    ensures { IfOk result (λ e. e ≡ not_of (shift_of shift.Shr (not_of (local_of pattern)) count.now)) }
{
    let count = count.copy(alloc)?;
    let inverted = not(alloc, local(pattern))?;
    let shifted = shift(alloc, ShiftOp::Shr, inverted, count)?;
    not(alloc, shifted)
}

/// A local's pattern, shifted to the right with its sign.
fn shift_with_sign(alloc: Global, sign: u32, pattern: u32, count: &Expr) -> Result<Expr, NoMemory>
    ensures { IfOk result (λ e. e ≡ signed_shift (local_of sign) (local_of pattern) count.now) }
{
    let plain = plain_shift(alloc, pattern, count)?;
    let back = inverted_shift(alloc, pattern, count)?;
    select(alloc, local(sign), plain, back)
}

/// A local's pattern, shifted to the right with its sign. The count is given up: who calls this owns nothing
/// where memory may run out.
pub fn signed_shift(alloc: Global, sign: u32, pattern: u32, count: Expr) -> Result<Expr, NoMemory>
    ensures { IfOk result (λ e. e ≡ signed_shift (local_of sign) (local_of pattern) count) }
{
    shift_with_sign(alloc, sign, pattern, &count)
}

/// A count as a constant.
pub fn count(n: u8) -> Expr
    ensures { result ≡ count_of n }
{
    constant(StType::Int, i64::from(n))
}

/// The lowest byte of ACCU2.
fn count_in_accu2(alloc: Global) -> Result<Expr, NoMemory>
    ensures { IfOk result (λ e. e ≡ count_in_accu2) }
{
    let byte = and(alloc, read(Reg::Accu2), constant(StType::Dword, 0xff))?;
    convert(alloc, StType::Dword, StType::Int, byte)
}

/// A count less one.
pub fn one_less(alloc: Global, count_less: Expr) -> Result<Expr, NoMemory>
    ensures { IfOk result (λ e. e ≡ one_less count_less) }
{
    binary(alloc, BinaryOp::Sub, count_less, count(1))
}

/// A local takes the count, and the next one whether there is a step.
pub fn push_counted(alloc: Global, steps: &mut List<Stmt>, first: u32) -> Result<(), NoMemory>
    requires { first + 8 < 2 ^ 32 }
    ensures { OnOk result (steps.new ≡ steps.old ++ count_locals first) }
{
    let steps_wanted = count_in_accu2(alloc)?;
    steps.push(set_local(first, steps_wanted))?;
    let is_stepped = binary(alloc, BinaryOp::Ne, local(first), count(0))?;
    steps.push(set_local(first + 1, is_stepped))
}

/// The flags show the bit that was shifted out last.
pub fn push_flags(steps: &mut List<Stmt>, out: Expr) -> Result<(), NoMemory>
    ensures { OnOk result (steps.new ≡ steps.old ++ flags_set out) }
{
    steps.push(set_register(Reg::Cc1, out))?;
    steps.push(set_register(Reg::Cc0, literal(false)))?;
    steps.push(set_register(Reg::Ov, literal(false)))
}

/// A flag is cleared where a local says that there is a step.
fn push_cleared_where(
    alloc: Global,
    steps: &mut List<Stmt>,
    stepped: u32,
    flag: Reg,
) -> Result<(), NoMemory>
    ensures { OnOk result (steps.new ≡ steps.old ++ cleared_where (local_of stepped) flag) }
{
    let stays = not(alloc, local(stepped))?;
    let kept = and(alloc, read(flag), stays)?;
    steps.push(set_register(flag, kept))
}

/// The flags show the bit that was shifted out last where a local says that there is a step, and else stay as
/// they are.
pub fn push_flags_where(
    alloc: Global,
    steps: &mut List<Stmt>,
    stepped: u32,
    out: Expr,
) -> Result<(), NoMemory>
    ensures { OnOk result (steps.new ≡ steps.old ++ flags_set_where (local_of stepped) out) }
{
    let shown = select(alloc, local(stepped), read(Reg::Cc1), out)?;
    steps.push(set_register(Reg::Cc1, shown))?;
    push_cleared_where(alloc, steps, stepped, Reg::Cc0)?;
    push_cleared_where(alloc, steps, stepped, Reg::Ov)
}
