//! Templates of checks of bits and of the status word.
ghost use Rattle.std.specs.Prelude.{◌≡◌, ◌<◌, ◌+◌, ◌^◌, ◌++◌, IfOk, OnOk};
ghost use Rattle.bit_templates.specs.Bits.{answer_of, behind_check, checked_bit_of, check_value_of, or_alone_of, types_checked};
ghost use Rattle.template_parts.specs.Builders.{and_of, not_of, read_of};

use crate::chain::{next_rlo, running_chain};
use s7_base::{Check, List, NoMemory, Reg, Width};
use st_tree::{Expr, StType, Stmt};
use status_word::Test;
use std::alloc::Global;
use stl_tree::BitArg;
use template_parts::{
    and, fetched_value, literal, not, push_clear_or, push_fetch, read, set_register, types_fetched,
    xor,
};

/// The types of the locals of a check.
pub fn types_checked(arg: &BitArg) -> &'static [StType]
    ensures { result.now ≡ types_checked arg.now }
{
    match arg {
        BitArg::At(operand) => types_fetched(operand, Width::Bit),
        BitArg::Flag(_) => &[],
    }
}

/// The statements of a check, after those that fetch its bit.
pub fn push_checked(
    alloc: Global,
    steps: &mut List<Stmt>,
    first: u32,
    check: Check,
    arg: &BitArg,
) -> Result<(), NoMemory>
    requires { first + 8 < 2 ^ 32 }
    ensures { OnOk result (steps.new ≡ steps.old ++ checked_bit_of first check arg.now) }
{
    if let BitArg::At(operand) = arg {
        push_fetch(alloc, steps, first, operand, Width::Bit)?;
    }
    let bit = check_value(alloc, first, arg)?;
    let value = next_rlo(alloc, running_chain(), check, bit)?;
    steps.push(set_register(Reg::Rlo, value))?;
    push_behind_check(steps, check)
}

/// OR keeps the RLO of the chain, and the next check is a first one.
pub fn push_or_alone(alloc: Global, steps: &mut List<Stmt>) -> Result<(), NoMemory>
    ensures { OnOk result (steps.new ≡ steps.old ++ or_alone_of) }
{
    let kept = and(alloc, read(Reg::Rlo), read(Reg::Nfc))?;
    steps.push(set_register(Reg::Orb, kept))?;
    steps.push(set_register(Reg::Nfc, literal(false)))
}

/// OR after a check: an AND keeps it, the others clear it.
fn push_behind_check(steps: &mut List<Stmt>, check: Check) -> Result<(), NoMemory>
    ensures { OnOk result (steps.new ≡ steps.old ++ behind_check check) }
{
    match check {
        Check::A | Check::An => steps.push(set_register(Reg::Nfc, literal(true))),
        Check::O | Check::On | Check::X | Check::Xn => push_clear_or(steps, true),
    }
}

/// The bit that a check tests.
fn check_value(alloc: Global, first: u32, arg: &BitArg) -> Result<Expr, NoMemory>
    requires { first + 8 < 2 ^ 32 }
    ensures { IfOk result (λ value. value ≡ check_value_of first arg.now) }
{
    match arg {
        BitArg::At(operand) => Ok(fetched_value(first, operand, Width::Bit)),
        BitArg::Flag(test) => answer(alloc, *test),
    }
}

/// The answer of the status word to a test.
pub fn answer(alloc: Global, test: Test) -> Result<Expr, NoMemory>
    ensures { IfOk result (λ value. value ≡ answer_of test) }
{
    match test {
        Test::Eq => {
            let not_greater = not(alloc, read(Reg::Cc1))?;
            and_not_less(alloc, not_greater)
        }
        Test::Ne => xor(alloc, read(Reg::Cc1), read(Reg::Cc0)),
        Test::Gt => and_not_less(alloc, read(Reg::Cc1)),
        Test::Lt => {
            let not_greater = not(alloc, read(Reg::Cc1))?;
            and(alloc, not_greater, read(Reg::Cc0))
        }
        Test::Ge => not(alloc, read(Reg::Cc0)),
        Test::Le => not(alloc, read(Reg::Cc1)),
        Test::Uo => and(alloc, read(Reg::Cc1), read(Reg::Cc0)),
        Test::Ov => Ok(read(Reg::Ov)),
        Test::Os => Ok(read(Reg::Os)),
        Test::Br => Ok(read(Reg::Br)),
    }
}

/// Whether a bit is TRUE and CC0 is FALSE.
fn and_not_less(alloc: Global, bit: Expr) -> Result<Expr, NoMemory>
    ensures { IfOk result (λ value. value ≡ and_of bit (not_of (read_of Reg.Cc0))) }
{
    let not_less = not(alloc, read(Reg::Cc0))?;
    and(alloc, bit, not_less)
}
