//! Word logic.
ghost use Rattle.std.specs.Prelude.{◌≡◌, ◌++◌, IfOk, OnOk};
ghost use Rattle.accumulator_templates.specs.Logic.{logic_value_of, computed_of, fixed_of, logic_of, nonzero_of, operator_of, other_of, shown_of, type_of_logic, types_of_logic, with_pattern_of};
ghost use Rattle.stl_tree.specs.Reads.{is_fixed};

use crate::parts::{dword, lowest_bits};
use s7_base::{List, NoMemory, Reg, Width};
use st_tree::{BinaryOp, Expr, StType, Stmt};
use std::alloc::Global;
use stl_tree::LogicRow;
use template_parts::{binary, constant, literal, local, read, set_local, set_register, with_low};

/// The statements of a word logic instruction, with a constant or with ACCU2. Where its constant fixes the
/// result, ACCU1 may be unset.
pub fn push_logic(
    alloc: Global,
    steps: &mut List<Stmt>,
    first: u32,
    row: LogicRow,
    number: Option<u32>,
) -> Result<(), NoMemory>
    ensures { OnOk result (steps.new ≡ steps.old ++ logic_of first row number) }
{
    match number {
        Some(number) if is_fixed(row, number) => push_fixed(steps, number),
        number => push_computed(alloc, steps, first, row, number),
    }
}

/// The types of the locals of a word logic instruction.
pub fn types_of_logic(row: LogicRow, number: Option<u32>) -> &'static [StType]
    ensures { result.now ≡ types_of_logic row number }
{
    match number {
        Some(number) if is_fixed(row, number) => &[],
        number => match row.width() {
            Width::Word => &[StType::Word],
            other => &[StType::Dword],
        },
    }
}

/// Whether a constant fixes the result of a word logic instruction for every value of ACCU1.
fn is_fixed(row: LogicRow, number: u32) -> bool
    ensures { result ≡ is_fixed row number }
{
    match row {
        LogicRow::Ad => number == 0,
        LogicRow::Od => number == 0xFFFF_FFFF,
        other => false,
    }
}

fn type_of_logic(row: LogicRow) -> StType
    ensures { result ≡ type_of_logic row }
{
    match row.width() {
        Width::Word => StType::Word,
        other => StType::Dword,
    }
}

fn operator_of(row: LogicRow) -> BinaryOp
    ensures { result ≡ operator_of row }
{
    match row {
        LogicRow::Aw => BinaryOp::And,
        LogicRow::Ow => BinaryOp::Or,
        LogicRow::Xow => BinaryOp::Xor,
        LogicRow::Ad => BinaryOp::And,
        LogicRow::Od => BinaryOp::Or,
        LogicRow::Xod => BinaryOp::Xor,
    }
}

/// The statements where the constant fixes the result: ACCU1 takes it, and nothing is read.
fn push_fixed(steps: &mut List<Stmt>, number: u32) -> Result<(), NoMemory>
    ensures { OnOk result (steps.new ≡ steps.old ++ fixed_of number) }
{
    push_shown(steps, literal(number != 0))?;
    steps.push(set_register(Reg::Accu1, dword(number)))
}

/// The statements where a local takes the result.
fn push_computed(
    alloc: Global,
    steps: &mut List<Stmt>,
    first: u32,
    row: LogicRow,
    number: Option<u32>,
) -> Result<(), NoMemory>
    ensures { OnOk result (steps.new ≡ steps.old ++ computed_of first row number) }
{
    let value = logic_value(alloc, row, number)?;
    steps.push(set_local(first, value))?;
    let nonzero = nonzero(alloc, row, first)?;
    push_shown(steps, nonzero)?;
    let accu1 = with_pattern(alloc, row, local(first))?;
    steps.push(set_register(Reg::Accu1, accu1))
}

/// Whether the result in a local is other than zero.
fn nonzero(alloc: Global, row: LogicRow, first: u32) -> Result<Expr, NoMemory>
    ensures { IfOk result (λ value. value ≡ nonzero_of first row) }
{
    let zero = constant(type_of_logic(row), 0);
    binary(alloc, BinaryOp::Ne, local(first), zero)
}

/// The flags of a result: CC1 says whether it is other than zero, CC0 and OV are cleared.
fn push_shown(steps: &mut List<Stmt>, nonzero: Expr) -> Result<(), NoMemory>
    ensures { OnOk result (steps.new ≡ steps.old ++ shown_of nonzero) }
{
    steps.push(set_register(Reg::Cc1, nonzero))?;
    steps.push(set_register(Reg::Cc0, literal(false)))?;
    steps.push(set_register(Reg::Ov, literal(false)))
}

/// The result of a word logic instruction, a pattern of its width.
fn logic_value(alloc: Global, row: LogicRow, number: Option<u32>) -> Result<Expr, NoMemory>
    ensures { IfOk result (λ value. value ≡ logic_value_of row number) }
{
    let pattern = lowest_bits(alloc, row.width(), read(Reg::Accu1))?;
    binary(alloc, operator_of(row), pattern, other(alloc, row, number)?)
}

/// What ACCU1 is combined with: the constant, or ACCU2.
fn other(alloc: Global, row: LogicRow, number: Option<u32>) -> Result<Expr, NoMemory>
    ensures { IfOk result (λ value. value ≡ other_of row number) }
{
    match number {
        Some(number) => Ok(constant(type_of_logic(row), i64::from(number))),
        None => lowest_bits(alloc, row.width(), read(Reg::Accu2)),
    }
}

/// ACCU1 with a pattern in the part that a word logic instruction changes.
fn with_pattern(alloc: Global, row: LogicRow, pattern: Expr) -> Result<Expr, NoMemory>
    ensures { IfOk result (λ value. value ≡ with_pattern_of row pattern) }
{
    match row {
        LogicRow::Ad => Ok(pattern),
        LogicRow::Od => Ok(pattern),
        LogicRow::Xod => Ok(pattern),
        other => with_low(alloc, pattern),
    }
}
