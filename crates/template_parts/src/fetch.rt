//! The statements that lead to an operand. What may fault is read before an instruction, into a local of its
//! own.
ghost use Rattle.std.specs.Prelude.{◌≡◌, ℕ, ◌+◌, ◌^◌, ◌<◌, [], ◌∷◌, ◌++◌, IfOk, OnOk, length};
ghost use Rattle.st_tree.specs.Values.{type_of_width};
ghost use Rattle.template_parts.specs.Pointing.{in_area_of, sum_of};
ghost use Rattle.template_parts.specs.Fetching.{fetch_of, fetched_value_of, may_fault, pointer_local, reach_of, reading_of, types_fetched, types_reached, writing_of};

use crate::builders::{box_both, constant, local, set_local, set_register};
use crate::pointing::{crossing, in_area, sum};
use memory_areas::AreaName;
use s7_base::{Boxed, List, NoMemory, Reg, Width};
use st_tree::{Expr, StType, Stmt, Var};
use std::alloc::Global;
use stl_tree::{Ar, Operand};

/// Whether an access to an operand may fault: it lies in a data block, or is found by a pointer; a formal stands for
/// what may.
pub fn may_fault(operand: &Operand) -> bool
    ensures { result ≡ may_fault operand.now }
{
    match *operand {
        Operand::Direct(area, _, _) => matches!(area, AreaName::Db | AreaName::Di),
        _ => true,
    }
}

/// The statements before an access to an operand: its data block is opened, or a local takes its pointer.
pub fn push_reach(
    alloc: Global,
    steps: &mut List<Stmt>,
    first: u32,
    operand: &Operand,
) -> Result<(), NoMemory>
    requires { first + 8 < 2 ^ 32 }
    ensures { OnOk result (steps.new ≡ steps.old ++ reach_of first operand.now) }
{
    match *operand {
        Operand::Direct(_, _, _) | Operand::Formal(_) => Ok(()),
        Operand::Opened(number, _, _) => {
            steps.push(set_register(Reg::DbNo, constant(StType::Word, i64::from(number))))
        }
        Operand::ByMemory(area, pointer_area, byte) => {
            let pointer = Var::Direct(pointer_area, byte, 0, Width::Dword);
            steps.push(set_local(first, Expr::Read(pointer)))?;
            let found = in_area(alloc, area, local(first))?;
            steps.push(set_local(first + 1, found))
        }
        Operand::ByRegister(area, ar, offset) => {
            let found = sum_in_area(alloc, area, ar, offset)?;
            steps.push(set_local(first, found))
        }
        Operand::Crossing(ar, offset) => {
            let found = crossing(alloc, ar, offset)?;
            steps.push(set_local(first, found))
        }
    }
}

/// The sum of an address register and an offset, in an area.
fn sum_in_area(alloc: Global, area: AreaName, ar: Ar, offset: u32) -> Result<Expr, NoMemory>
    ensures { IfOk result (λ value. value ≡ in_area_of area (sum_of ar offset)) }
{
    let total = sum(alloc, ar, offset)?;
    in_area(alloc, area, total)
}

/// The statements before an instruction that reads an operand: what may fault is read into a local.
pub fn push_fetch(
    alloc: Global,
    steps: &mut List<Stmt>,
    first: u32,
    operand: &Operand,
    width: Width,
) -> Result<(), NoMemory>
    requires { first + 8 < 2 ^ 32 }
    ensures { OnOk result (steps.new ≡ steps.old ++ fetch_of first operand.now width) }
{
    push_reach(alloc, steps, first, operand)?;
    if may_fault(operand) {
        let value = reading(alloc, first, operand, width)?;
        steps.push(set_local(behind_reached(first, operand), value))?;
    }
    Ok(())
}

/// The operand as the instruction reads it.
pub fn fetched_value(first: u32, operand: &Operand, width: Width) -> Expr
    requires { first + 8 < 2 ^ 32 }
    ensures { result ≡ fetched_value_of first operand.now width }
{
    match *operand {
        Operand::Direct(area, byte, bit) if !may_fault(operand) => {
            Expr::Read(Var::Direct(area, byte, bit, width))
        }
        _ => local(behind_reached(first, operand)),
    }
}

/// The value of an operand that was reached.
pub fn reading(alloc: Global, first: u32, operand: &Operand, width: Width) -> Result<Expr, NoMemory>
    requires { first + 8 < 2 ^ 32 }
    ensures { IfOk result (λ value. value ≡ reading_of first operand.now width) }
{
    match *operand {
        Operand::Direct(area, byte, bit) => Ok(Expr::Read(Var::Direct(area, byte, bit, width))),
        Operand::Opened(_, byte, bit) => {
            Ok(Expr::Read(Var::Direct(AreaName::Db, byte, bit, width)))
        }
        Operand::Formal(position) => Ok(Expr::Read(Var::Formal(position))),
        _ => {
            let pointer = local(pointer_local(first, operand));
            Ok(Expr::AreaRead(width, Boxed::new(alloc, pointer)?))
        }
    }
}

/// An operand that was reached takes a value.
pub fn writing(
    alloc: Global,
    first: u32,
    operand: &Operand,
    width: Width,
    value: Expr,
) -> Result<Stmt, NoMemory>
    requires { first + 8 < 2 ^ 32 }
    ensures { IfOk result (λ step. step ≡ writing_of first operand.now width value) }
{
    match *operand {
        Operand::Direct(area, byte, bit) => {
            Ok(Stmt::Assign(Var::Direct(area, byte, bit, width), value))
        }
        Operand::Opened(_, byte, bit) => {
            Ok(Stmt::Assign(Var::Direct(AreaName::Db, byte, bit, width), value))
        }
        Operand::Formal(position) => Ok(Stmt::Assign(Var::Formal(position), value)),
        _ => {
            let pointer = local(pointer_local(first, operand));
            let (pointer, value) = box_both(alloc, pointer, value)?;
            Ok(Stmt::AreaWrite(width, pointer, value))
        }
    }
}

/// The local with the pointer: the last one, where there are any.
fn pointer_local(first: u32, operand: &Operand) -> u32
    requires { first + 8 < 2 ^ 32 }
    ensures { result ≡ pointer_local first operand.now }
{
    match *operand {
        Operand::ByMemory(_, _, _) => first + 1,
        _ => first,
    }
}

/// The number of the first local after those that lead to an operand.
fn behind_reached(first: u32, operand: &Operand) -> u32
    requires { first + 8 < 2 ^ 32 }
    ensures { result ≡ first + length (types_reached operand.now) }
{
    match *operand {
        Operand::Direct(_, _, _) | Operand::Opened(_, _, _) | Operand::Formal(_) => first,
        Operand::ByMemory(_, _, _) => first + 2,
        Operand::ByRegister(_, _, _) | Operand::Crossing(_, _) => first + 1,
    }
}

/// The types of the locals that lead to an operand.
pub fn types_reached(operand: &Operand) -> &'static [StType]
    ensures { result.now ≡ types_reached operand.now }
{
    match *operand {
        Operand::Direct(_, _, _) | Operand::Opened(_, _, _) | Operand::Formal(_) => &[],
        Operand::ByMemory(_, _, _) => &[StType::Dword, StType::Dword],
        Operand::ByRegister(_, _, _) | Operand::Crossing(_, _) => &[StType::Dword],
    }
}

/// The types of the locals of an operand that is fetched.
pub fn types_fetched(operand: &Operand, width: Width) -> &'static [StType]
    ensures { result.now ≡ types_fetched operand.now width }
{
    if !may_fault(operand) {
        return &[];
    }
    match *operand {
        Operand::Direct(_, _, _) | Operand::Opened(_, _, _) | Operand::Formal(_) => {
            one_of_width(width)
        }
        Operand::ByMemory(_, _, _) => third_of_width(width),
        Operand::ByRegister(_, _, _) | Operand::Crossing(_, _) => second_of_width(width),
    }
}

/// The type of one local of a width.
fn one_of_width(width: Width) -> &'static [StType]
    ensures { result.now ≡ type_of_width width ∷ [] }
{
    match width {
        Width::Bit => &[StType::Bool],
        Width::Byte => &[StType::Byte],
        Width::Word => &[StType::Word],
        Width::Dword => &[StType::Dword],
    }
}

/// The types of a pointer and of a local of a width.
fn second_of_width(width: Width) -> &'static [StType]
    ensures { result.now ≡ StType.Dword ∷ type_of_width width ∷ [] }
{
    match width {
        Width::Bit => &[StType::Dword, StType::Bool],
        Width::Byte => &[StType::Dword, StType::Byte],
        Width::Word => &[StType::Dword, StType::Word],
        Width::Dword => &[StType::Dword, StType::Dword],
    }
}

/// The types of two pointers and of a local of a width.
fn third_of_width(width: Width) -> &'static [StType]
    ensures { result.now ≡ StType.Dword ∷ StType.Dword ∷ type_of_width width ∷ [] }
{
    match width {
        Width::Bit => &[StType::Dword, StType::Dword, StType::Bool],
        Width::Byte => &[StType::Dword, StType::Dword, StType::Byte],
        Width::Word => &[StType::Dword, StType::Dword, StType::Word],
        Width::Dword => &[StType::Dword, StType::Dword, StType::Dword],
    }
}
