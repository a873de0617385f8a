//! Templates of the arithmetic instructions.
ghost use Rattle.std.specs.Prelude.{◌≡◌, ◌++◌, ◌+◌, ◌<◌, ◌^◌, IfOk, OnOk};
ghost use Rattle.arithmetic_templates.specs.Calculations.{both_words_of, calculated_of, division_by_local_of, division_flags_of, division_left_of, divisor_kept_of, divisor_of, in_high_word_of, in_low_word_of, negated_of, operation_of, product_of, quotient_in_dword_of, quotient_in_words_of, quotient_over_of, remainder_in_dword_of, result_of, types_of_calculated, types_of_negated, zero_of};

use crate::numbers::{
    differs, narrow, narrow_local, negative, positive, push_flags, push_overflow, wide,
    wide_number, with_number,
};
use s7_base::{List, NoMemory, Reg, Width};
use st_tree::{BinaryOp, Expr, ShiftOp, StType, Stmt, UnaryOp};
use std::alloc::Global;
use stl_tree::Arith;
use template_parts::{
    binary, constant, convert, local, or, read, select, set_local, set_register, shift, unary,
};

fn operation(alloc: Global, op: BinaryOp, width: Width) -> Result<Expr, NoMemory>
    ensures { IfOk result (λ value. value ≡ operation_of op width) }
{
    let left = wide_number(alloc, width, Reg::Accu2)?;
    let right = wide_number(alloc, width, Reg::Accu1)?;
    binary(alloc, op, left, right)
}

fn push_result(
    alloc: Global,
    steps: &mut List<Stmt>,
    first: u32,
    width: Width,
    value: Expr,
) -> Result<(), NoMemory>
    requires { first + 8 < 2 ^ 32 }
    ensures { OnOk result (steps.new ≡ steps.old ++ result_of first width value) }
{
    steps.push(set_local(first, value))?;
    let left = narrow_local(alloc, width, first)?;
    steps.push(set_local(first + 1, left))?;
    let over = differs(alloc, width, local(first + 1), first)?;
    steps.push(set_local(first + 2, over))?;
    push_flags(alloc, steps, narrow(width), first + 1, first + 2)?;
    let accu1 = with_number(alloc, width, local(first + 1))?;
    steps.push(set_register(Reg::Accu1, accu1))
}

fn push_product(
    alloc: Global,
    steps: &mut List<Stmt>,
    first: u32,
    width: Width,
) -> Result<(), NoMemory>
    requires { first + 8 < 2 ^ 32 }
    ensures { OnOk result (steps.new ≡ steps.old ++ product_of first width) }
{
    let product = operation(alloc, BinaryOp::Mul, width)?;
    steps.push(set_local(first, product))?;
    let left = narrow_local(alloc, width, first)?;
    let over = differs(alloc, width, left, first)?;
    steps.push(set_local(first + 1, over))?;
    push_flags(alloc, steps, wide(width), first, first + 1)?;
    let accu1 = convert(alloc, wide(width), StType::Dword, local(first))?;
    steps.push(set_register(Reg::Accu1, accu1))
}

fn zero(alloc: Global, ty: StType, index: u32) -> Result<Expr, NoMemory>
    ensures { IfOk result (λ value. value ≡ zero_of ty index) }
{
    binary(alloc, BinaryOp::Eq, local(index), constant(ty, 0))
}

#[tactic(auto, unfolding(crate::specs::Calculations::divisor_of))]
fn divisor(alloc: Global, ty: StType, index: u32) -> Result<Expr, NoMemory>
    ensures { IfOk result (λ value. value ≡ divisor_of ty index) }
{
    let none = zero(alloc, ty, index)?;
    select(alloc, none, local(index), constant(ty, 1))
}

fn division_by_local(
    alloc: Global,
    op: BinaryOp,
    width: Width,
    index: u32,
) -> Result<Expr, NoMemory>
    ensures { IfOk result (λ value. value ≡ division_by_local_of op width index) }
{
    let number = wide_number(alloc, width, Reg::Accu2)?;
    let divisor = divisor(alloc, wide(width), index)?;
    binary(alloc, op, number, divisor)
}

fn quotient_over(alloc: Global, width: Width, none: u32, index: u32) -> Result<Expr, NoMemory>
    ensures { IfOk result (λ value. value ≡ quotient_over_of width none index) }
{
    let left = narrow_local(alloc, width, index)?;
    let over = differs(alloc, width, left, index)?;
    or(alloc, local(none), over)
}

/// A local in the high word, above zeros.
fn in_high_word(alloc: Global, index: u32) -> Result<Expr, NoMemory>
    ensures { IfOk result (λ value. value ≡ in_high_word_of index) }
{
    let pattern = convert(alloc, StType::Dint, StType::Dword, local(index))?;
    shift(alloc, ShiftOp::Shl, pattern, constant(StType::Int, 16))
}

/// A local in the low word, below zeros.
fn in_low_word(alloc: Global, index: u32) -> Result<Expr, NoMemory>
    ensures { IfOk result (λ value. value ≡ in_low_word_of index) }
{
    let word = convert(alloc, StType::Dint, StType::Word, local(index))?;
    convert(alloc, StType::Word, StType::Dword, word)
}

fn both_words(alloc: Global, quotient: u32, remainder: u32) -> Result<Expr, NoMemory>
    ensures { IfOk result (λ value. value ≡ both_words_of quotient remainder) }
{
    let high = in_high_word(alloc, remainder)?;
    let low = in_low_word(alloc, quotient)?;
    or(alloc, high, low)
}

/// Flags of a division: a local says that there is no divisor, another whether OV is set, and a third has the sign.
fn push_division_flags(
    alloc: Global,
    steps: &mut List<Stmt>,
    width: Width,
    none: u32,
    over: u32,
    signed: u32,
) -> Result<(), NoMemory>
    ensures { OnOk result (steps.new ≡ steps.old ++ division_flags_of width none over signed) }
{
    let above = positive(alloc, wide(width), signed)?;
    let cc1 = or(alloc, local(none), above)?;
    steps.push(set_register(Reg::Cc1, cc1))?;
    let below = negative(alloc, wide(width), signed)?;
    let cc0 = or(alloc, local(none), below)?;
    steps.push(set_register(Reg::Cc0, cc0))?;
    push_overflow(alloc, steps, over)
}

/// ACCU1 takes what a division leaves, and is kept where a local says that there is no divisor.
fn push_division_left(
    alloc: Global,
    steps: &mut List<Stmt>,
    none: u32,
    accu1: Expr,
) -> Result<(), NoMemory>
    ensures { OnOk result (steps.new ≡ steps.old ++ division_left_of none accu1) }
{
    let accu1 = select(alloc, local(none), accu1, read(Reg::Accu1))?;
    steps.push(set_register(Reg::Accu1, accu1))
}

#[tactic(auto, unfolding(crate::specs::Calculations::divisor_kept_of))]
fn push_divisor_kept(
    alloc: Global,
    steps: &mut List<Stmt>,
    first: u32,
    width: Width,
) -> Result<(), NoMemory>
    requires { first + 8 < 2 ^ 32 }
    ensures { OnOk result (steps.new ≡ steps.old ++ divisor_kept_of first width) }
{
    let divisor = wide_number(alloc, width, Reg::Accu1)?;
    steps.push(set_local(first, divisor))?;
    let none = zero(alloc, wide(width), first)?;
    steps.push(set_local(first + 1, none))
}

#[tactic(auto, unfolding(crate::specs::Calculations::quotient_in_words_of))]
fn push_quotient_in_words(alloc: Global, steps: &mut List<Stmt>, first: u32) -> Result<(), NoMemory>
    requires { first + 8 < 2 ^ 32 }
    ensures { OnOk result (steps.new ≡ steps.old ++ quotient_in_words_of first) }
{
    let quotient = division_by_local(alloc, BinaryOp::Div, Width::Word, first)?;
    steps.push(set_local(first + 2, quotient))?;
    let remainder = division_by_local(alloc, BinaryOp::Mod, Width::Word, first)?;
    steps.push(set_local(first + 3, remainder))?;
    let over = quotient_over(alloc, Width::Word, first + 1, first + 2)?;
    steps.push(set_local(first + 4, over))?;
    push_division_flags(alloc, steps, Width::Word, first + 1, first + 4, first + 2)?;
    let accu1 = both_words(alloc, first + 2, first + 3)?;
    push_division_left(alloc, steps, first + 1, accu1)
}

#[tactic(auto, unfolding(crate::specs::Calculations::quotient_in_dword_of))]
fn push_quotient_in_dword(alloc: Global, steps: &mut List<Stmt>, first: u32) -> Result<(), NoMemory>
    requires { first + 8 < 2 ^ 32 }
    ensures { OnOk result (steps.new ≡ steps.old ++ quotient_in_dword_of first) }
{
    let quotient = division_by_local(alloc, BinaryOp::Div, Width::Dword, first)?;
    steps.push(set_local(first + 2, quotient))?;
    let over = quotient_over(alloc, Width::Dword, first + 1, first + 2)?;
    steps.push(set_local(first + 3, over))?;
    push_division_flags(alloc, steps, Width::Dword, first + 1, first + 3, first + 2)?;
    let accu1 = convert(alloc, StType::Lint, StType::Dword, local(first + 2))?;
    push_division_left(alloc, steps, first + 1, accu1)
}

#[tactic(auto, unfolding(crate::specs::Calculations::remainder_in_dword_of))]
fn push_remainder_in_dword(
    alloc: Global,
    steps: &mut List<Stmt>,
    first: u32,
) -> Result<(), NoMemory>
    requires { first + 8 < 2 ^ 32 }
    ensures { OnOk result (steps.new ≡ steps.old ++ remainder_in_dword_of first) }
{
    let remainder = division_by_local(alloc, BinaryOp::Mod, Width::Dword, first)?;
    steps.push(set_local(first + 2, remainder))?;
    push_division_flags(alloc, steps, Width::Dword, first + 1, first + 1, first + 2)?;
    let accu1 = convert(alloc, StType::Lint, StType::Dword, local(first + 2))?;
    push_division_left(alloc, steps, first + 1, accu1)
}

fn push_operated(
    alloc: Global,
    steps: &mut List<Stmt>,
    first: u32,
    op: BinaryOp,
    width: Width,
) -> Result<(), NoMemory>
    requires { first + 8 < 2 ^ 32 }
    ensures { OnOk result (steps.new ≡ steps.old ++ result_of first width (operation_of op width)) }
{
    let value = operation(alloc, op, width)?;
    push_result(alloc, steps, first, width, value)
}

/// Appends the statements of an arithmetic instruction, whose locals are those from `first` on.
pub fn push_calculated(
    alloc: Global,
    steps: &mut List<Stmt>,
    first: u32,
    row: Arith,
) -> Result<(), NoMemory>
    requires { first + 8 < 2 ^ 32 }
    ensures { OnOk result (steps.new ≡ steps.old ++ calculated_of first row) }
{
    match row {
        Arith::AddI => push_operated(alloc, steps, first, BinaryOp::Add, Width::Word),
        Arith::SubI => push_operated(alloc, steps, first, BinaryOp::Sub, Width::Word),
        Arith::MulI => push_product(alloc, steps, first, Width::Word),
        Arith::DivI => {
            push_divisor_kept(alloc, steps, first, Width::Word)?;
            push_quotient_in_words(alloc, steps, first)
        }
        Arith::AddD => push_operated(alloc, steps, first, BinaryOp::Add, Width::Dword),
        Arith::SubD => push_operated(alloc, steps, first, BinaryOp::Sub, Width::Dword),
        Arith::MulD => push_product(alloc, steps, first, Width::Dword),
        Arith::DivD => {
            push_divisor_kept(alloc, steps, first, Width::Dword)?;
            push_quotient_in_dword(alloc, steps, first)
        }
        Arith::Mod => {
            push_divisor_kept(alloc, steps, first, Width::Dword)?;
            push_remainder_in_dword(alloc, steps, first)
        }
    }
}

/// Appends the statements of NEGI or NEGD, whose locals are those from `first` on.
pub fn push_negated(
    alloc: Global,
    steps: &mut List<Stmt>,
    first: u32,
    width: Width,
) -> Result<(), NoMemory>
    requires { first + 8 < 2 ^ 32 }
    ensures { OnOk result (steps.new ≡ steps.old ++ negated_of first width) }
{
    let number = wide_number(alloc, width, Reg::Accu1)?;
    let negated = unary(alloc, UnaryOp::Minus, number)?;
    push_result(alloc, steps, first, width, negated)
}

/// The types of the locals of an arithmetic instruction, in their order.
pub fn types_of_calculated(row: Arith) -> &'static [StType]
    ensures { result.now ≡ types_of_calculated row }
{
    match row {
        Arith::AddI | Arith::SubI => &[StType::Dint, StType::Int, StType::Bool],
        Arith::MulI => &[StType::Dint, StType::Bool],
        Arith::DivI => &[
            StType::Dint,
            StType::Bool,
            StType::Dint,
            StType::Dint,
            StType::Bool,
        ],
        Arith::AddD | Arith::SubD => &[StType::Lint, StType::Dint, StType::Bool],
        Arith::MulD => &[StType::Lint, StType::Bool],
        Arith::DivD => &[StType::Lint, StType::Bool, StType::Lint, StType::Bool],
        Arith::Mod => &[StType::Lint, StType::Bool, StType::Lint],
    }
}

/// The types of the locals of NEGI or NEGD, in their order.
pub fn types_of_negated(width: Width) -> &'static [StType]
    ensures { result.now ≡ types_of_negated width }
{
    match width {
        Width::Dword => &[StType::Lint, StType::Dint, StType::Bool],
        _ => &[StType::Dint, StType::Int, StType::Bool],
    }
}
