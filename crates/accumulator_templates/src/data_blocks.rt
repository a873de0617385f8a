//! The numbers of the open data blocks: opening, exchanging, loading them.
ghost use Rattle.std.specs.Prelude.{◌≡◌, ◌+◌, ◌++◌, ◌<◌, ◌^◌, OnOk};
ghost use Rattle.accumulator_templates.specs.DataBlocks.{block_exchange_of, block_open_of, number_load_of, types_of_block_exchange, types_of_block_open};

use crate::moves::push_taken;
use s7_base::{List, NoMemory, Reg, Width};
use st_tree::{StType, Stmt};
use std::alloc::Global;
use stl_tree::OpenArg;
use template_parts::{
    constant, convert, fetched_value, local, push_fetch, read, set_local, set_register,
    types_fetched,
};

/// The statements of `OPN` for the DB or the DI register. A word is read before the register takes it, since
/// the read may fault.
pub fn push_block_open(
    alloc: Global,
    steps: &mut List<Stmt>,
    first: u32,
    register: Reg,
    arg: OpenArg,
) -> Result<(), NoMemory>
    requires { first + 8 < 2 ^ 32 }
    ensures { OnOk result (steps.new ≡ steps.old ++ block_open_of first register arg) }
{
    match arg {
        OpenArg::Number(number) => {
            steps.push(set_register(register, constant(StType::Word, i64::from(number))))
        }
        OpenArg::At(operand) => {
            push_fetch(alloc, steps, first, &operand, Width::Word)?;
            steps.push(set_register(register, fetched_value(first, &operand, Width::Word)))
        }
    }
}

/// The types of the locals of `OPN`.
pub fn types_of_block_open(arg: OpenArg) -> &'static [StType]
    ensures { result.now ≡ types_of_block_open arg }
{
    match arg {
        OpenArg::Number(_) => &[],
        OpenArg::At(operand) => types_fetched(&operand, Width::Word),
    }
}

/// The statements of `CDB`.
pub fn push_block_exchange(steps: &mut List<Stmt>, first: u32) -> Result<(), NoMemory>
    ensures { OnOk result (steps.new ≡ steps.old ++ block_exchange_of first) }
{
    steps.push(set_local(first, read(Reg::DbNo)))?;
    steps.push(set_register(Reg::DbNo, read(Reg::DiNo)))?;
    steps.push(set_register(Reg::DiNo, local(first)))
}

/// The types of the locals of `CDB`.
pub fn types_of_block_exchange() -> &'static [StType]
    ensures { result.now ≡ types_of_block_exchange }
{
    &[StType::Word]
}

/// The statements of `L DBNO` and `L DINO`, which load the DB or the DI register.
pub fn push_number_load(
    alloc: Global,
    steps: &mut List<Stmt>,
    register: Reg,
) -> Result<(), NoMemory>
    ensures { OnOk result (steps.new ≡ steps.old ++ number_load_of register) }
{
    let number = convert(alloc, StType::Word, StType::Dword, read(register))?;
    push_taken(steps, number)
}
