//! Templates of jumps.
ghost use Rattle.std.specs.Prelude.{◌≡◌, ◌++◌, IfOk, OnOk};
ghost use Rattle.jump_templates.specs.Jumps.{question_of, behind_jump, bit_as, end_if_of, is_counting_of, jump_of, list_of, loop_of, low_byte_of, types_of_jump, types_of_list, types_of_test};

use accumulator_templates::push_add_word;
use bit_templates::{answer, push_rlo, push_saved};
use s7_base::{List, NoMemory, Reg};
use st_tree::{BinaryOp, Expr, StType, Stmt};
use std::alloc::Global;
use stl_tree::JumpTest;
use template_parts::{
    and, binary, constant, convert, literal, local, not, push_clear_or, read, set_local,
    set_register,
};

/// The types of the locals of a jump: one for its test.
pub fn types_of_jump(test: JumpTest) -> &'static [StType]
    ensures { result.now ≡ types_of_jump test }
{
    match test {
        JumpTest::Always => &[],
        _ => &[StType::Bool],
    }
}

/// The types of the locals of `LOOP` and `BEC`.
pub fn types_of_test() -> &'static [StType]
    ensures { result.now ≡ types_of_test }
{
    &[StType::Bool]
}

/// The types of the locals of `JL`.
pub fn types_of_list() -> &'static [StType]
    ensures { result.now ≡ types_of_list }
{
    &[StType::Dint]
}

/// The statements of a jump; `JU` has none.
pub fn push_jump(
    alloc: Global,
    steps: &mut List<Stmt>,
    first: u32,
    test: JumpTest,
) -> Result<(), NoMemory>
    ensures { OnOk result (steps.new ≡ steps.old ++ jump_of first test) }
{
    match test {
        JumpTest::Always => Ok(()),
        _ => {
            let question = question(alloc, test)?;
            steps.push(set_local(first, question))?;
            push_behind_jump(steps, test)
        }
    }
}

/// What a jump tests.
fn question(alloc: Global, test: JumpTest) -> Result<Expr, NoMemory>
    ensures { IfOk result (λ value. value ≡ question_of test) }
{
    match test {
        JumpTest::Always => Ok(literal(true)),
        JumpTest::Rlo(wanted) | JumpTest::RloSaved(wanted) => bit_as(alloc, wanted, Reg::Rlo),
        JumpTest::Br(wanted) => bit_as(alloc, wanted, Reg::Br),
        JumpTest::Overflow => Ok(read(Reg::Ov)),
        JumpTest::StoredOverflow => Ok(read(Reg::Os)),
        JumpTest::Result(result) => answer(alloc, result),
    }
}

/// Whether a bit is the one that is wanted.
fn bit_as(alloc: Global, wanted: bool, register: Reg) -> Result<Expr, NoMemory>
    ensures { IfOk result (λ value. value ≡ bit_as wanted register) }
{
    if wanted {
        Ok(read(register))
    } else {
        not(alloc, read(register))
    }
}

/// What a jump makes of the status bits, whether it is made or not.
fn push_behind_jump(steps: &mut List<Stmt>, test: JumpTest) -> Result<(), NoMemory>
    ensures { OnOk result (steps.new ≡ steps.old ++ behind_jump test) }
{
    match test {
        JumpTest::Rlo(_) => push_rlo(steps, true),
        JumpTest::RloSaved(_) => {
            push_saved(steps)?;
            push_rlo(steps, true)
        }
        JumpTest::Br(_) => push_clear_or(steps, false),
        JumpTest::StoredOverflow => steps.push(set_register(Reg::Os, literal(false))),
        JumpTest::Always | JumpTest::Overflow | JumpTest::Result(_) => Ok(()),
    }
}

/// The statements of `LOOP`: the low word of ACCU1 is counted down, and then tested.
pub fn push_loop(alloc: Global, steps: &mut List<Stmt>, first: u32) -> Result<(), NoMemory>
    ensures { OnOk result (steps.new ≡ steps.old ++ loop_of first) }
{
    push_add_word(alloc, steps, -1)?;
    let counting = is_counting(alloc)?;
    steps.push(set_local(first, counting))
}

/// Whether the low word of ACCU1 is not 0.
fn is_counting(alloc: Global) -> Result<Expr, NoMemory>
    ensures { IfOk result (λ value. value ≡ is_counting_of) }
{
    let count = convert(alloc, StType::Dword, StType::Word, read(Reg::Accu1))?;
    binary(alloc, BinaryOp::Ne, count, constant(StType::Word, 0))
}

/// The statements of `JL`.
pub fn push_list(alloc: Global, steps: &mut List<Stmt>, first: u32) -> Result<(), NoMemory>
    ensures { OnOk result (steps.new ≡ steps.old ++ list_of first) }
{
    let selected = low_byte(alloc)?;
    steps.push(set_local(first, selected))
}

/// The lowest byte of ACCU1, as a DINT.
fn low_byte(alloc: Global) -> Result<Expr, NoMemory>
    ensures { IfOk result (λ value. value ≡ low_byte_of) }
{
    let byte = convert(alloc, StType::Dword, StType::Byte, read(Reg::Accu1))?;
    convert(alloc, StType::Byte, StType::Dint, byte)
}

/// The statements of `BEC`: the chain ends, and OS is cleared where the block does.
pub fn push_end_if(alloc: Global, steps: &mut List<Stmt>, first: u32) -> Result<(), NoMemory>
    ensures { OnOk result (steps.new ≡ steps.old ++ end_if_of first) }
{
    steps.push(set_local(first, read(Reg::Rlo)))?;
    let goes_on = not(alloc, local(first))?;
    let kept = and(alloc, read(Reg::Os), goes_on)?;
    steps.push(set_register(Reg::Os, kept))?;
    push_rlo(steps, true)
}
