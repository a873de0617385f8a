//! Templates of the instructions that load, store and move values.
ghost use Rattle.std.specs.Prelude.{◌≡◌, ◌∷◌, [], ◌+◌, ◌++◌, ◌<◌, ◌^◌, IfOk, OnOk};
ghost use Rattle.accumulator_templates.specs.Moves.{before_load, exchange_of, flag_from_of, load_of, loaded_value, pop_of, push_of, status_load_of, status_store_of, status_value, taken_of, transfer_of, types_of_exchange, types_of_load, with_flag_of};

use crate::parts::{any_bit, bits_where, dword, lowest_bits, zero_extension};
use s7_base::{List, NoMemory, Reg, Width};
use st_tree::{Expr, StType, Stmt};
use std::alloc::Global;
use stl_tree::{LoadArg, Operand};
use template_parts::{
    fetched_value, local, or, push_fetch, push_reach, read, set_local, set_register, types_fetched,
    writing,
};

/// The statements of `L`, whose locals are those from `first` on.
pub fn push_load(
    alloc: Global,
    steps: &mut List<Stmt>,
    first: u32,
    arg: &LoadArg,
) -> Result<(), NoMemory>
    requires { first + 8 < 2 ^ 32 }
    ensures { OnOk result (steps.new ≡ steps.old ++ load_of first arg.now) }
{
    push_before_load(alloc, steps, first, arg)?;
    push_taken(steps, loaded_value(alloc, first, arg)?)
}

/// The statements of `L` that may fault: they come before ACCU1 moves to ACCU2.
fn push_before_load(
    alloc: Global,
    steps: &mut List<Stmt>,
    first: u32,
    arg: &LoadArg,
) -> Result<(), NoMemory>
    requires { first + 8 < 2 ^ 32 }
    ensures { OnOk result (steps.new ≡ steps.old ++ before_load first arg.now) }
{
    match arg {
        LoadArg::At(operand, width) => push_fetch(alloc, steps, first, operand, *width),
        LoadArg::Constant(_) => Ok(()),
    }
}

fn loaded_value(alloc: Global, first: u32, arg: &LoadArg) -> Result<Expr, NoMemory>
    requires { first + 8 < 2 ^ 32 }
    ensures { IfOk result (λ value. value ≡ loaded_value first arg.now) }
{
    match arg {
        LoadArg::At(operand, width) => zero_extension(
            alloc,
            *width,
            fetched_value(first, operand, *width),
        ),
        LoadArg::Constant(number) => Ok(dword(*number)),
    }
}

/// The types of the locals of `L`.
pub fn types_of_load(arg: &LoadArg) -> &'static [StType]
    ensures { result.now ≡ types_of_load arg.now }
{
    match arg {
        LoadArg::At(operand, width) => types_fetched(operand, *width),
        LoadArg::Constant(_) => &[],
    }
}

/// ACCU2 takes ACCU1, and ACCU1 takes a value.
pub fn push_taken(steps: &mut List<Stmt>, value: Expr) -> Result<(), NoMemory>
    ensures { OnOk result (steps.new ≡ steps.old ++ taken_of value) }
{
    steps.push(set_register(Reg::Accu2, read(Reg::Accu1)))?;
    steps.push(set_register(Reg::Accu1, value))
}

/// The statements of `T` of a byte, a word or a double word, whose locals are those from `first` on.
pub fn push_transfer(
    alloc: Global,
    steps: &mut List<Stmt>,
    first: u32,
    operand: &Operand,
    width: Width,
) -> Result<(), NoMemory>
    requires { first + 8 < 2 ^ 32 }
    ensures { OnOk result (steps.new ≡ steps.old ++ transfer_of first operand.now width) }
{
    push_reach(alloc, steps, first, operand)?;
    let pattern = lowest_bits(alloc, width, read(Reg::Accu1))?;
    let step = writing(alloc, first, operand, width, pattern)?;
    steps.push(step)
}

/// The statements of `L STW`.
pub fn push_status_load(alloc: Global, steps: &mut List<Stmt>) -> Result<(), NoMemory>
    ensures { OnOk result (steps.new ≡ steps.old ++ status_load_of) }
{
    push_taken(steps, status_value(alloc)?)
}

fn status_value(alloc: Global) -> Result<Expr, NoMemory>
    ensures { IfOk result (λ value. value ≡ status_value) }
{
    let value = bits_where(alloc, read(Reg::Rlo), 0x2)?;
    let value = with_flag(alloc, value, Reg::Os, 0x10)?;
    let value = with_flag(alloc, value, Reg::Ov, 0x20)?;
    let value = with_flag(alloc, value, Reg::Cc0, 0x40)?;
    let value = with_flag(alloc, value, Reg::Cc1, 0x80)?;
    with_flag(alloc, value, Reg::Br, 0x100)
}

/// A DWORD that has the bits of a mask set where a flag is set.
fn with_flag(alloc: Global, pattern: Expr, flag: Reg, mask: u32) -> Result<Expr, NoMemory>
    ensures { IfOk result (λ value. value ≡ with_flag_of pattern flag mask) }
{
    let bits = bits_where(alloc, read(flag), mask)?;
    or(alloc, pattern, bits)
}

/// The statements of `T STW`.
pub fn push_status_store(alloc: Global, steps: &mut List<Stmt>) -> Result<(), NoMemory>
    ensures { OnOk result (steps.new ≡ steps.old ++ status_store_of) }
{
    push_flag_from(alloc, steps, Reg::Rlo, 0x2)?;
    push_flag_from(alloc, steps, Reg::Os, 0x10)?;
    push_flag_from(alloc, steps, Reg::Ov, 0x20)?;
    push_flag_from(alloc, steps, Reg::Cc0, 0x40)?;
    push_flag_from(alloc, steps, Reg::Cc1, 0x80)?;
    push_flag_from(alloc, steps, Reg::Br, 0x100)
}

/// A flag takes the bit of ACCU1 that a mask selects.
fn push_flag_from(
    alloc: Global,
    steps: &mut List<Stmt>,
    flag: Reg,
    mask: u32,
) -> Result<(), NoMemory>
    ensures { OnOk result (steps.new ≡ steps.old ++ (flag_from_of flag mask ∷ [])) }
{
    let bit = any_bit(alloc, read(Reg::Accu1), mask)?;
    steps.push(set_register(flag, bit))
}

/// The statements of `TAK`.
pub fn push_exchange(steps: &mut List<Stmt>, first: u32) -> Result<(), NoMemory>
    ensures { OnOk result (steps.new ≡ steps.old ++ exchange_of first) }
{
    steps.push(set_local(first, read(Reg::Accu1)))?;
    steps.push(set_register(Reg::Accu1, read(Reg::Accu2)))?;
    steps.push(set_register(Reg::Accu2, local(first)))
}

/// The types of the locals of `TAK`.
pub fn types_of_exchange() -> &'static [StType]
    ensures { result.now ≡ types_of_exchange }
{
    &[StType::Dword]
}

/// The statements of `PUSH`.
pub fn push_push(steps: &mut List<Stmt>) -> Result<(), NoMemory>
    ensures { OnOk result (steps.new ≡ steps.old ++ push_of) }
{
    steps.push(set_register(Reg::Accu2, read(Reg::Accu1)))
}

/// The statements of `POP`.
pub fn push_pop(steps: &mut List<Stmt>) -> Result<(), NoMemory>
    ensures { OnOk result (steps.new ≡ steps.old ++ pop_of) }
{
    steps.push(set_register(Reg::Accu1, read(Reg::Accu2)))
}
