//! The address registers: loading, storing and exchanging them, and adding to them.
ghost use Rattle.std.specs.Prelude.{◌≡◌, ◌+◌, ◌++◌, ◌<◌, ◌^◌, IfOk, OnOk};
ghost use Rattle.stl_tree.specs.Reads.{register_of};
ghost use Rattle.template_parts.specs.Builders.{read_of};
ghost use Rattle.pointer_templates.specs.Pointers.{area_code_of, low_number, moved_number_of, pointer_sum_of, moved_sum_of, pointed_of, pointer_exchange_of, pointer_load_of, pointer_move_of, pointer_store_of, types_of_pointer_exchange, types_of_pointer_load, types_of_pointer_store};

use s7_base::{List, NoMemory, Reg, Width};
use st_tree::{BinaryOp, Expr, StType, Stmt};
use std::alloc::Global;
use stl_tree::{Ar, ArLoad, ArStore};
use template_parts::{
    and, binary, constant, convert, fetched_value, local, or, push_fetch, push_reach, read,
    register_of, set_local, set_register, types_fetched, types_reached, writing,
};

/// The bits of a pointer that have its area code.
const CODE: i64 = 0xFF00_0000;

/// The bits of a pointer below its area code, to which amounts are added.
const NUMBER: i64 = 0x00FF_FFFF;

/// An address register takes a pointer.
fn push_pointed(steps: &mut List<Stmt>, register: Ar, pointer: Expr) -> Result<(), NoMemory>
    ensures { OnOk result (steps.new ≡ steps.old ++ pointed_of register pointer) }
{
    steps.push(set_register(register_of(register), pointer))
}

/// The value of an address register.
fn address_register(register: Ar) -> Expr
    ensures { result ≡ read_of (register_of register) }
{
    read(register_of(register))
}

/// The statements of `LAR1` and `LAR2`, whose locals are those from `first` on.
pub fn push_pointer_load(
    alloc: Global,
    steps: &mut List<Stmt>,
    first: u32,
    register: Ar,
    from: ArLoad,
) -> Result<(), NoMemory>
    requires { first + 8 < 2 ^ 32 }
    ensures { OnOk result (steps.new ≡ steps.old ++ pointer_load_of first register from) }
{
    let pointer = match from {
        ArLoad::Accu1 => read(Reg::Accu1),
        ArLoad::Constant(pointer) => constant(StType::Dword, i64::from(pointer)),
        ArLoad::At(operand) => {
            push_fetch(alloc, steps, first, &operand, Width::Dword)?;
            fetched_value(first, &operand, Width::Dword)
        }
        ArLoad::OtherAr => address_register(register.other()),
    };
    push_pointed(steps, register, pointer)
}

/// The types of the locals of `LAR1` and `LAR2`.
pub fn types_of_pointer_load(from: ArLoad) -> &'static [StType]
    ensures { result.now ≡ types_of_pointer_load from }
{
    match from {
        ArLoad::At(operand) => types_fetched(&operand, Width::Dword),
        _ => &[],
    }
}

/// The statements of `TAR1` and `TAR2`, whose locals are those from `first` on.
pub fn push_pointer_store(
    alloc: Global,
    steps: &mut List<Stmt>,
    first: u32,
    register: Ar,
    to: ArStore,
) -> Result<(), NoMemory>
    requires { first + 8 < 2 ^ 32 }
    ensures { OnOk result (steps.new ≡ steps.old ++ pointer_store_of first register to) }
{
    match to {
        ArStore::Accu1 => {
            steps.push(set_register(Reg::Accu2, read(Reg::Accu1)))?;
            steps.push(set_register(Reg::Accu1, address_register(register)))
        }
        ArStore::At(operand) => {
            push_reach(alloc, steps, first, &operand)?;
            let step = writing(
                alloc,
                first,
                &operand,
                Width::Dword,
                address_register(register),
            )?;
            steps.push(step)
        }
        ArStore::OtherAr => push_pointed(steps, register.other(), address_register(register)),
    }
}

/// The types of the locals of `TAR1` and `TAR2`.
pub fn types_of_pointer_store(to: ArStore) -> &'static [StType]
    ensures { result.now ≡ types_of_pointer_store to }
{
    match to {
        ArStore::At(operand) => types_reached(&operand),
        _ => &[],
    }
}

/// The statements of `CAR`.
pub fn push_pointer_exchange(steps: &mut List<Stmt>, first: u32) -> Result<(), NoMemory>
    ensures { OnOk result (steps.new ≡ steps.old ++ pointer_exchange_of first) }
{
    steps.push(set_local(first, read(Reg::Ar1)))?;
    push_pointed(steps, Ar::One, read(Reg::Ar2))?;
    push_pointed(steps, Ar::Two, local(first))
}

/// The types of the locals of `CAR`.
pub fn types_of_pointer_exchange() -> &'static [StType]
    ensures { result.now ≡ types_of_pointer_exchange }
{
    &[StType::Dword]
}

/// The statements of `+AR1` and `+AR2`. An offset 0 reads nothing, so that the address register may be unset
/// there.
pub fn push_pointer_move(
    alloc: Global,
    steps: &mut List<Stmt>,
    register: Ar,
    amount: Option<u32>,
) -> Result<(), NoMemory>
    ensures { OnOk result (steps.new ≡ steps.old ++ pointer_move_of register amount) }
{
    match amount {
        Some(0) => Ok(()),
        Some(offset) => {
            let amount = constant(StType::Dint, i64::from(offset));
            push_moved(alloc, steps, register, amount)
        }
        None => {
            let amount = low_number(alloc)?;
            push_moved(alloc, steps, register, amount)
        }
    }
}

/// An amount is added to an address register.
fn push_moved(
    alloc: Global,
    steps: &mut List<Stmt>,
    register: Ar,
    amount: Expr,
) -> Result<(), NoMemory>
    ensures { OnOk result (steps.new ≡ steps.old ++ pointed_of register (pointer_sum_of register amount)) }
{
    let pointer_sum = pointer_sum(alloc, register, amount)?;
    push_pointed(steps, register, pointer_sum)
}

/// The low word of ACCU1 with its sign, as a DINT.
fn low_number(alloc: Global) -> Result<Expr, NoMemory>
    ensures { IfOk result (λ value. value ≡ low_number) }
{
    let word = convert(alloc, StType::Dword, StType::Int, read(Reg::Accu1))?;
    convert(alloc, StType::Int, StType::Dint, word)
}

/// The pointer of an address register with an amount added, which does not change its area code.
fn pointer_sum(alloc: Global, register: Ar, amount: Expr) -> Result<Expr, NoMemory>
    ensures { IfOk result (λ value. value ≡ pointer_sum_of register amount) }
{
    let number = moved_number(alloc, register, amount)?;
    let code = area_code(alloc, register)?;
    or(alloc, code, number)
}

/// The area code of the pointer of an address register.
fn area_code(alloc: Global, register: Ar) -> Result<Expr, NoMemory>
    ensures { IfOk result (λ value. value ≡ area_code_of register) }
{
    and(
        alloc,
        address_register(register),
        constant(StType::Dword, CODE),
    )
}

/// The bits below the area code of an address register, with an amount added.
fn moved_number(alloc: Global, register: Ar, amount: Expr) -> Result<Expr, NoMemory>
    ensures { IfOk result (λ value. value ≡ moved_number_of register amount) }
{
    let sum = moved_sum(alloc, register, amount)?;
    let pattern = convert(alloc, StType::Dint, StType::Dword, sum)?;
    and(alloc, pattern, constant(StType::Dword, NUMBER))
}

/// The pointer of an address register and an amount, added as numbers.
fn moved_sum(alloc: Global, register: Ar, amount: Expr) -> Result<Expr, NoMemory>
    ensures { IfOk result (λ value. value ≡ moved_sum_of register amount) }
{
    let whole = convert(
        alloc,
        StType::Dword,
        StType::Dint,
        address_register(register),
    )?;
    binary(alloc, BinaryOp::Add, whole, amount)
}
