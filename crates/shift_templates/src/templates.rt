//! The statements of each shift and rotation.
ghost use Rattle.std.specs.Prelude.{◌≡◌, ◌≢◌, ◌<◌, ◌+◌, ◌^◌, ◌++◌, OnOk};
ghost use Rattle.shift_templates.specs.ShiftParts.{signed_operand, signed_result};
ghost use Rattle.shift_templates.specs.ShiftTemplates.{by_accu2, by_constant, step_with_entry, leaving, rlda_template, rrda_template, shift_by_accu2, shift_by_constant, shift_template, signed_by_accu2, signed_by_constant, turn_by_accu2, turn_by_constant, types_by_accu2, types_by_constant, types_of_shift, types_through_cc1};

use crate::parts::{
    accu1_with, count, has_bit, one_less, operand, push_counted, push_flags, push_flags_where,
    shown_bit, signed_shift, top_bit,
};
use s7_base::{List, NoMemory, Reg, Width};
use st_tree::{Expr, ShiftOp, StType, Stmt};
use std::alloc::Global;
use stl_tree::ShiftRow;
use template_parts::{constant, convert, local, or, read, select, set_local, set_register, shift};

/// The statements of SLW, SRW, SLD and SRD by a constant.
fn push_shift_by_constant(
    alloc: Global,
    steps: &mut List<Stmt>,
    first: u32,
    op: ShiftOp,
    width: Width,
    n: u8,
) -> Result<(), NoMemory>
    requires { n ≢ 0 }
    ensures { OnOk result (steps.new ≡ steps.old ++ shift_by_constant op width n first) }
{
    let pattern = operand(alloc, width)?;
    let before = shift(alloc, op, pattern, count(n - 1))?;
    steps.push(set_local(first, before))?;
    let out = has_bit(alloc, width, shown_bit(op, width), local(first))?;
    push_flags(steps, out)?;
    let shifted = shift(alloc, op, local(first), count(1))?;
    let whole = accu1_with(alloc, width, shifted)?;
    steps.push(set_register(Reg::Accu1, whole))
}

/// Locals take what is shifted and its sign.
fn push_signed_operand(
    alloc: Global,
    steps: &mut List<Stmt>,
    pattern: u32,
    sign: u32,
    width: Width,
) -> Result<(), NoMemory>
    ensures { OnOk result (steps.new ≡ steps.old ++ signed_operand width pattern sign) }
{
    let shifted = operand(alloc, width)?;
    steps.push(set_local(pattern, shifted))?;
    let is_negative = has_bit(alloc, width, top_bit(width), local(pattern))?;
    steps.push(set_local(sign, is_negative))
}

/// ACCU1 takes a local's pattern, shifted with its sign.
fn push_signed_result(
    alloc: Global,
    steps: &mut List<Stmt>,
    pattern: u32,
    sign: u32,
    width: Width,
    count: Expr,
) -> Result<(), NoMemory>
    ensures { OnOk result (steps.new ≡ steps.old ++ signed_result width pattern sign count) }
{
    let shifted = signed_shift(alloc, sign, pattern, count)?;
    let whole = accu1_with(alloc, width, shifted)?;
    steps.push(set_register(Reg::Accu1, whole))
}

/// The statements of SSI and SSD by a constant.
fn push_signed_by_constant(
    alloc: Global,
    steps: &mut List<Stmt>,
    first: u32,
    width: Width,
    n: u8,
) -> Result<(), NoMemory>
    requires count { n ≢ 0 }
    requires locals { first + 8 < 2 ^ 32 }
    ensures { OnOk result (steps.new ≡ steps.old ++ signed_by_constant width n first) }
{
    push_signed_operand(alloc, steps, first, first + 1, width)?;
    let before = signed_shift(alloc, first + 1, first, count(n - 1))?;
    steps.push(set_local(first + 2, before))?;
    let out = has_bit(alloc, width, 1, local(first + 2))?;
    push_flags(steps, out)?;
    push_signed_result(alloc, steps, first + 2, first + 1, width, count(1))
}

/// The statements of RLD and RRD by a constant.
fn push_turn_by_constant(
    alloc: Global,
    steps: &mut List<Stmt>,
    first: u32,
    op: ShiftOp,
    n: u8,
) -> Result<(), NoMemory>
    ensures { OnOk result (steps.new ≡ steps.old ++ turn_by_constant op n first) }
{
    let turned = shift(alloc, op, read(Reg::Accu1), count(n))?;
    steps.push(set_local(first, turned))?;
    let out = has_bit(
        alloc,
        Width::Dword,
        shown_bit(op, Width::Dword),
        local(first),
    )?;
    push_flags(steps, out)?;
    steps.push(set_register(Reg::Accu1, local(first)))
}

/// The statements of SLW, SRW, SLD and SRD by ACCU2.
fn push_shift_by_accu2(
    alloc: Global,
    steps: &mut List<Stmt>,
    first: u32,
    op: ShiftOp,
    width: Width,
) -> Result<(), NoMemory>
    requires { first + 8 < 2 ^ 32 }
    ensures { OnOk result (steps.new ≡ steps.old ++ shift_by_accu2 op width first) }
{
    push_counted(alloc, steps, first)?;
    let pattern = operand(alloc, width)?;
    steps.push(set_local(first + 2, pattern))?;
    let less = one_less(alloc, local(first))?;
    let before = shift(alloc, op, local(first + 2), less)?;
    steps.push(set_local(first + 3, before))?;
    let out = has_bit(alloc, width, shown_bit(op, width), local(first + 3))?;
    push_flags_where(alloc, steps, first + 1, out)?;
    let shifted = shift(alloc, op, local(first + 2), local(first))?;
    let whole = accu1_with(alloc, width, shifted)?;
    steps.push(set_register(Reg::Accu1, whole))
}

/// The statements of SSI and SSD by ACCU2.
fn push_signed_by_accu2(
    alloc: Global,
    steps: &mut List<Stmt>,
    first: u32,
    width: Width,
) -> Result<(), NoMemory>
    requires { first + 8 < 2 ^ 32 }
    ensures { OnOk result (steps.new ≡ steps.old ++ signed_by_accu2 width first) }
{
    push_counted(alloc, steps, first)?;
    push_signed_operand(alloc, steps, first + 2, first + 3, width)?;
    let less = one_less(alloc, local(first))?;
    let before = signed_shift(alloc, first + 3, first + 2, less)?;
    steps.push(set_local(first + 4, before))?;
    let out = has_bit(alloc, width, 1, local(first + 4))?;
    push_flags_where(alloc, steps, first + 1, out)?;
    push_signed_result(alloc, steps, first + 2, first + 3, width, local(first))
}

/// The statements of RLD and RRD by ACCU2.
fn push_turn_by_accu2(
    alloc: Global,
    steps: &mut List<Stmt>,
    first: u32,
    op: ShiftOp,
) -> Result<(), NoMemory>
    requires { first + 8 < 2 ^ 32 }
    ensures { OnOk result (steps.new ≡ steps.old ++ turn_by_accu2 op first) }
{
    push_counted(alloc, steps, first)?;
    let turned = shift(alloc, op, read(Reg::Accu1), local(first))?;
    steps.push(set_local(first + 2, turned))?;
    let out = has_bit(
        alloc,
        Width::Dword,
        shown_bit(op, Width::Dword),
        local(first + 2),
    )?;
    push_flags_where(alloc, steps, first + 1, out)?;
    steps.push(set_register(Reg::Accu1, local(first + 2)))
}

/// The statements of a shift or a rotation by a constant.
fn push_by_constant(
    alloc: Global,
    steps: &mut List<Stmt>,
    first: u32,
    row: ShiftRow,
    n: u8,
) -> Result<(), NoMemory>
    requires count { n ≢ 0 }
    requires locals { first + 8 < 2 ^ 32 }
    ensures { OnOk result (steps.new ≡ steps.old ++ by_constant row n first) }
{
    match row {
        ShiftRow::Slw => push_shift_by_constant(alloc, steps, first, ShiftOp::Shl, Width::Word, n),
        ShiftRow::Srw => push_shift_by_constant(alloc, steps, first, ShiftOp::Shr, Width::Word, n),
        ShiftRow::Ssi => push_signed_by_constant(alloc, steps, first, Width::Word, n),
        ShiftRow::Sld => push_shift_by_constant(alloc, steps, first, ShiftOp::Shl, Width::Dword, n),
        ShiftRow::Srd => push_shift_by_constant(alloc, steps, first, ShiftOp::Shr, Width::Dword, n),
        ShiftRow::Ssd => push_signed_by_constant(alloc, steps, first, Width::Dword, n),
        ShiftRow::Rld => push_turn_by_constant(alloc, steps, first, ShiftOp::Rol, n),
        ShiftRow::Rrd => push_turn_by_constant(alloc, steps, first, ShiftOp::Ror, n),
    }
}

/// The statements of a shift or a rotation by ACCU2.
fn push_by_accu2(
    alloc: Global,
    steps: &mut List<Stmt>,
    first: u32,
    row: ShiftRow,
) -> Result<(), NoMemory>
    requires { first + 8 < 2 ^ 32 }
    ensures { OnOk result (steps.new ≡ steps.old ++ by_accu2 row first) }
{
    match row {
        ShiftRow::Slw => push_shift_by_accu2(alloc, steps, first, ShiftOp::Shl, Width::Word),
        ShiftRow::Srw => push_shift_by_accu2(alloc, steps, first, ShiftOp::Shr, Width::Word),
        ShiftRow::Ssi => push_signed_by_accu2(alloc, steps, first, Width::Word),
        ShiftRow::Sld => push_shift_by_accu2(alloc, steps, first, ShiftOp::Shl, Width::Dword),
        ShiftRow::Srd => push_shift_by_accu2(alloc, steps, first, ShiftOp::Shr, Width::Dword),
        ShiftRow::Ssd => push_signed_by_accu2(alloc, steps, first, Width::Dword),
        ShiftRow::Rld => push_turn_by_accu2(alloc, steps, first, ShiftOp::Rol),
        ShiftRow::Rrd => push_turn_by_accu2(alloc, steps, first, ShiftOp::Ror),
    }
}

/// The statements of a shift or a rotation, whose locals are those from `first` on.
pub fn push_shift(
    alloc: Global,
    steps: &mut List<Stmt>,
    first: u32,
    row: ShiftRow,
    by: Option<u8>,
) -> Result<(), NoMemory>
    requires { first + 8 < 2 ^ 32 }
    ensures { OnOk result (steps.new ≡ steps.old ++ shift_template first row by) }
{
    match by {
        None => push_by_accu2(alloc, steps, first, row),
        Some(n) => {
            if n == 0 {
                return Ok(());
            }
            push_by_constant(alloc, steps, first, row, n)
        }
    }
}

/// A local keeps CC1, and the flags show the bit that leaves ACCU1.
fn push_leaving(
    alloc: Global,
    steps: &mut List<Stmt>,
    first: u32,
    op: ShiftOp,
) -> Result<(), NoMemory>
    ensures { OnOk result (steps.new ≡ steps.old ++ leaving op first) }
{
    steps.push(set_local(first, read(Reg::Cc1)))?;
    let out = has_bit(
        alloc,
        Width::Dword,
        shown_bit(op, Width::Dword),
        read(Reg::Accu1),
    )?;
    push_flags(steps, out)
}

/// ACCU1 takes its pattern after one step, with the bit that enters it.
fn push_entered(
    alloc: Global,
    steps: &mut List<Stmt>,
    op: ShiftOp,
    entering: Expr,
) -> Result<(), NoMemory>
    ensures { OnOk result (steps.new ≡ steps.old ++ step_with_entry op entering) }
{
    let shifted = shift(alloc, op, read(Reg::Accu1), count(1))?;
    let whole = or(alloc, shifted, entering)?;
    steps.push(set_register(Reg::Accu1, whole))
}

/// The statements of `RLDA`, whose locals are those from `first` on.
pub fn push_rlda(alloc: Global, steps: &mut List<Stmt>, first: u32) -> Result<(), NoMemory>
    ensures { OnOk result (steps.new ≡ steps.old ++ rlda_template first) }
{
    push_leaving(alloc, steps, first, ShiftOp::Shl)?;
    let entering = convert(alloc, StType::Bool, StType::Dword, local(first))?;
    push_entered(alloc, steps, ShiftOp::Shl, entering)
}

/// The statements of `RRDA`, whose locals are those from `first` on.
pub fn push_rrda(alloc: Global, steps: &mut List<Stmt>, first: u32) -> Result<(), NoMemory>
    ensures { OnOk result (steps.new ≡ steps.old ++ rrda_template first) }
{
    push_leaving(alloc, steps, first, ShiftOp::Shr)?;
    let low = constant(StType::Dword, 0);
    let high = constant(StType::Dword, 0x8000_0000);
    let entering = select(alloc, local(first), low, high)?;
    push_entered(alloc, steps, ShiftOp::Shr, entering)
}

/// The types of the locals that a shift by a constant takes.
fn types_by_constant(row: ShiftRow) -> &'static [StType]
    ensures { result.now ≡ types_by_constant row }
{
    match row {
        ShiftRow::Slw | ShiftRow::Srw => &[StType::Word],
        ShiftRow::Ssi => &[StType::Word, StType::Bool, StType::Word],
        ShiftRow::Sld | ShiftRow::Srd | ShiftRow::Rld | ShiftRow::Rrd => &[StType::Dword],
        ShiftRow::Ssd => &[StType::Dword, StType::Bool, StType::Dword],
    }
}

/// The types of the locals that a shift by ACCU2 takes.
fn types_by_accu2(row: ShiftRow) -> &'static [StType]
    ensures { result.now ≡ types_by_accu2 row }
{
    match row {
        ShiftRow::Slw | ShiftRow::Srw => &[StType::Int, StType::Bool, StType::Word, StType::Word],
        ShiftRow::Ssi => &[
            StType::Int,
            StType::Bool,
            StType::Word,
            StType::Bool,
            StType::Word,
        ],
        ShiftRow::Sld | ShiftRow::Srd => &[StType::Int, StType::Bool, StType::Dword, StType::Dword],
        ShiftRow::Ssd => &[
            StType::Int,
            StType::Bool,
            StType::Dword,
            StType::Bool,
            StType::Dword,
        ],
        ShiftRow::Rld | ShiftRow::Rrd => &[StType::Int, StType::Bool, StType::Dword],
    }
}

/// The types of the locals that a shift or a rotation takes.
pub fn types_of_shift(row: ShiftRow, by: Option<u8>) -> &'static [StType]
    ensures { result.now ≡ types_of_shift row by }
{
    match by {
        None => types_by_accu2(row),
        Some(n) => {
            if n == 0 {
                return &[];
            }
            types_by_constant(row)
        }
    }
}

/// The types of the locals that RLDA and RRDA take.
pub fn types_through_cc1() -> &'static [StType]
    ensures { result.now ≡ types_through_cc1 }
{
    &[StType::Bool]
}
