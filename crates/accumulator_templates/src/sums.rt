//! Templates of the instructions that add a constant to a part of ACCU1: `+`, INC and DEC. A constant 0 reads
//! nothing, so ACCU1 may be unset there.
ghost use Rattle.std.specs.Prelude.{◌≡◌, ◌++◌, IfOk, OnOk};
ghost use Rattle.accumulator_templates.specs.Sums.{add_dword_of, add_word_of, byte_sum_of, dec_of, inc_of, sum_of};

use crate::parts::with_byte;
use s7_base::{List, NoMemory, Reg};
use st_tree::{BinaryOp, Expr, StType, Stmt};
use std::alloc::Global;
use template_parts::{binary, constant, convert, read, set_register, with_low};

/// ACCU1 as a number of a type, with a constant, as a pattern of another type.
fn sum(
    alloc: Global,
    op: BinaryOp,
    number: StType,
    pattern: StType,
    constant_number: i64,
) -> Result<Expr, NoMemory>
    ensures { IfOk result (λ value. value ≡ sum_of op number pattern constant_number) }
{
    let part = convert(alloc, StType::Dword, number, read(Reg::Accu1))?;
    let sum = binary(alloc, op, part, constant(number, constant_number))?;
    convert(alloc, number, pattern, sum)
}

/// The statements of `+ n`, which adds 16 bits.
pub fn push_add_word(alloc: Global, steps: &mut List<Stmt>, number: i16) -> Result<(), NoMemory>
    ensures { OnOk result (steps.new ≡ steps.old ++ add_word_of number) }
{
    if number == 0 {
        return Ok(());
    }
    let sum = sum(
        alloc,
        BinaryOp::Add,
        StType::Int,
        StType::Word,
        i64::from(number),
    )?;
    let whole = with_low(alloc, sum)?;
    steps.push(set_register(Reg::Accu1, whole))
}

/// The statements of `+ L#n`, which adds 32 bits.
pub fn push_add_dword(alloc: Global, steps: &mut List<Stmt>, number: i32) -> Result<(), NoMemory>
    ensures { OnOk result (steps.new ≡ steps.old ++ add_dword_of number) }
{
    if number == 0 {
        return Ok(());
    }
    let sum = sum(
        alloc,
        BinaryOp::Add,
        StType::Dint,
        StType::Dword,
        i64::from(number),
    )?;
    steps.push(set_register(Reg::Accu1, sum))
}

/// A constant added to the lowest byte of ACCU1, or subtracted from it.
fn push_byte_sum(
    alloc: Global,
    steps: &mut List<Stmt>,
    op: BinaryOp,
    number: u8,
) -> Result<(), NoMemory>
    ensures { OnOk result (steps.new ≡ steps.old ++ byte_sum_of op number) }
{
    if number == 0 {
        return Ok(());
    }
    let sum = sum(alloc, op, StType::Int, StType::Byte, i64::from(number))?;
    let whole = with_byte(alloc, sum)?;
    steps.push(set_register(Reg::Accu1, whole))
}

/// The statements of `INC`.
pub fn push_inc(alloc: Global, steps: &mut List<Stmt>, number: u8) -> Result<(), NoMemory>
    ensures { OnOk result (steps.new ≡ steps.old ++ inc_of number) }
{
    push_byte_sum(alloc, steps, BinaryOp::Add, number)
}

/// The statements of `DEC`.
pub fn push_dec(alloc: Global, steps: &mut List<Stmt>, number: u8) -> Result<(), NoMemory>
    ensures { OnOk result (steps.new ≡ steps.old ++ dec_of number) }
{
    push_byte_sum(alloc, steps, BinaryOp::Sub, number)
}
