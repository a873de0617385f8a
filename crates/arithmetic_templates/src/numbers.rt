//! Numbers of a width and wider ones, and what ends a calculation.
ghost use Rattle.std.specs.Prelude.{◌≡◌, ◌++◌, IfOk, OnOk};
ghost use Rattle.arithmetic_templates.specs.Numbers.{narrow_local_of, differs_of, flags_of, narrow, negative_of, number_of, overflow_of, positive_of, wide, wide_number_of, with_number_of};

use s7_base::{List, NoMemory, Reg, Width};
use st_tree::{BinaryOp, Expr, StType, Stmt};
use std::alloc::Global;
use template_parts::{binary, constant, convert, local, or, read, set_register, with_low};

pub fn narrow(width: Width) -> StType
    ensures { result ≡ narrow width }
{
    match width {
        Width::Dword => StType::Dint,
        _ => StType::Int,
    }
}

pub fn wide(width: Width) -> StType
    ensures { result ≡ wide width }
{
    match width {
        Width::Dword => StType::Lint,
        _ => StType::Dint,
    }
}

pub fn number(alloc: Global, width: Width, register: Reg) -> Result<Expr, NoMemory>
    ensures { IfOk result (λ value. value ≡ number_of width register) }
{
    convert(alloc, StType::Dword, narrow(width), read(register))
}

pub fn wide_number(alloc: Global, width: Width, register: Reg) -> Result<Expr, NoMemory>
    ensures { IfOk result (λ value. value ≡ wide_number_of width register) }
{
    let held = number(alloc, width, register)?;
    convert(alloc, narrow(width), wide(width), held)
}

pub fn narrow_local(alloc: Global, width: Width, index: u32) -> Result<Expr, NoMemory>
    ensures { IfOk result (λ value. value ≡ narrow_local_of width index) }
{
    convert(alloc, wide(width), narrow(width), local(index))
}

pub fn differs(
    alloc: Global,
    width: Width,
    narrow_local: Expr,
    index: u32,
) -> Result<Expr, NoMemory>
    ensures { IfOk result (λ value. value ≡ differs_of width narrow_local index) }
{
    let widened = convert(alloc, narrow(width), wide(width), narrow_local)?;
    binary(alloc, BinaryOp::Ne, widened, local(index))
}

pub fn positive(alloc: Global, ty: StType, index: u32) -> Result<Expr, NoMemory>
    ensures { IfOk result (λ value. value ≡ positive_of ty index) }
{
    binary(alloc, BinaryOp::Gt, local(index), constant(ty, 0))
}

pub fn negative(alloc: Global, ty: StType, index: u32) -> Result<Expr, NoMemory>
    ensures { IfOk result (λ value. value ≡ negative_of ty index) }
{
    binary(alloc, BinaryOp::Lt, local(index), constant(ty, 0))
}

pub fn with_number(alloc: Global, width: Width, number: Expr) -> Result<Expr, NoMemory>
    ensures { IfOk result (λ value. value ≡ with_number_of width number) }
{
    match width {
        Width::Dword => convert(alloc, StType::Dint, StType::Dword, number),
        _ => {
            let word = convert(alloc, StType::Int, StType::Word, number)?;
            with_low(alloc, word)
        }
    }
}

/// OV and OS by a local that says whether a calculation overflowed.
pub fn push_overflow(alloc: Global, steps: &mut List<Stmt>, over: u32) -> Result<(), NoMemory>
    ensures { OnOk result (steps.new ≡ steps.old ++ overflow_of over) }
{
    steps.push(set_register(Reg::Ov, local(over)))?;
    let stored = or(alloc, read(Reg::Os), local(over))?;
    steps.push(set_register(Reg::Os, stored))
}

/// Flags of a calculation, of which those of a sign are a local's.
pub fn push_flags(
    alloc: Global,
    steps: &mut List<Stmt>,
    ty: StType,
    signed: u32,
    over: u32,
) -> Result<(), NoMemory>
    ensures { OnOk result (steps.new ≡ steps.old ++ flags_of (positive_of ty signed) (negative_of ty signed) over) }
{
    let cc1 = positive(alloc, ty, signed)?;
    steps.push(set_register(Reg::Cc1, cc1))?;
    let cc0 = negative(alloc, ty, signed)?;
    steps.push(set_register(Reg::Cc0, cc0))?;
    push_overflow(alloc, steps, over)
}
