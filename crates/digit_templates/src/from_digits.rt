//! Numbers read from decimal digits.
ghost use Rattle.std.specs.Prelude.{◌≡◌, ◌++◌, OnOk};
ghost use Rattle.digit_templates.specs.FromDigits.{btd_of, bti_of, types_of_btd, types_of_bti};

use s7_base::{List, NoMemory, Reg};
use st_tree::{StType, Stmt, UnaryOp};
use std::alloc::Global;
use template_parts::{convert, local, read, set_local, set_register, unary, with_low};

/// The statements of BTI, with one local.
pub fn push_bti(alloc: Global, steps: &mut List<Stmt>, first: u32) -> Result<(), NoMemory>
    ensures { OnOk result (steps.new ≡ steps.old ++ bti_of first) }
{
    let digits = convert(alloc, StType::Dword, StType::Word, read(Reg::Accu1))?;
    steps.push(set_local(first, unary(alloc, UnaryOp::BcdToInt, digits)?))?;
    let number = convert(alloc, StType::Int, StType::Word, local(first))?;
    steps.push(set_register(Reg::Accu1, with_low(alloc, number)?))
}

/// The types of the locals of BTI.
pub fn types_of_bti() -> &'static [StType]
    ensures { result.now ≡ types_of_bti }
{
    &[StType::Int]
}

/// The statements of BTD, with one local.
pub fn push_btd(alloc: Global, steps: &mut List<Stmt>, first: u32) -> Result<(), NoMemory>
    ensures { OnOk result (steps.new ≡ steps.old ++ btd_of first) }
{
    steps.push(set_local(first, unary(alloc, UnaryOp::BcdToDint, read(Reg::Accu1))?))?;
    let number = convert(alloc, StType::Dint, StType::Dword, local(first))?;
    steps.push(set_register(Reg::Accu1, number))
}

/// The types of the locals of BTD.
pub fn types_of_btd() -> &'static [StType]
    ensures { result.now ≡ types_of_btd }
{
    &[StType::Dint]
}
