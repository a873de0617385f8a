//! The statements of each call.
ghost use Rattle.std.specs.Prelude.{◌≡◌, ◌+◌, ◌^◌, ◌<◌, ◌++◌, IfOk, OnOk, length};
ghost use Rattle.call_templates.specs.Calls.{call_if_of, call_of, function_block_call_of, function_call_of, guarded_of, opened_call_of, types_of_call, types_of_call_if, types_of_constants, types_of_operands, types_saved};

use crate::actuals::{
    push_constants, push_copies_back, push_copies_in, push_operands, push_types_of_constants,
    push_types_of_operands, variables,
};
use crate::around::{push_end_word, push_put_back, push_save};
use s7_base::{List, NoMemory, Reg};
use st_tree::{Arm, StType, Stmt};
use std::alloc::Global;
use stl_tree::{Actual, BlockCall, Formal};
use template_parts::{constant, literal, local, read, set_local, set_register};

/// Appends the types of the locals of a call of a block with these formals.
pub fn push_types_of_call(
    types: &mut List<StType>,
    formals: &[Formal],
    call: &BlockCall,
) -> Result<(), NoMemory>
    ensures { OnOk result (types.new ≡ types.old ++ types_of_call formals.now call.now) }
{
    types.push(StType::Word)?;
    types.push(StType::Word)?;
    if call.instance == 0 {
        push_types_of_constants(types, formals, call.actuals.as_slice())
    } else {
        push_types_of_operands(types, formals, call.actuals.as_slice())
    }
}

/// The types of the locals of `CC`.
pub fn types_of_call_if() -> &'static [StType]
    ensures { result.now ≡ types_of_call_if }
{
    &[StType::Bool, StType::Word, StType::Word]
}

/// Appends the statements of a call of a block with these formals, whose unit has this number.
pub fn push_call(
    alloc: Global,
    steps: &mut List<Stmt>,
    first: u32,
    unit: u32,
    formals: &[Formal],
    call: &BlockCall,
) -> Result<(), NoMemory>
    requires { first + length (types_of_call formals.now call.now) < 2 ^ 32 }
    ensures { OnOk result (steps.new ≡ steps.old ++ call_of first unit formals.now call.now) }
{
    let actuals = call.actuals.as_slice();
    if call.instance == 0 {
        push_function_call(alloc, steps, first, unit, formals, actuals)
    } else {
        push_function_block_call(alloc, steps, first, unit, call.instance, formals, actuals)
    }
}

/// Appends the statements of a call of a function.
fn push_function_call(
    alloc: Global,
    steps: &mut List<Stmt>,
    first: u32,
    unit: u32,
    formals: &[Formal],
    actuals: &[Actual],
) -> Result<(), NoMemory>
    requires { first + 2 + length (types_of_constants formals.now actuals.now) < 2 ^ 32 }
    ensures { OnOk result (steps.new ≡ steps.old ++ function_call_of first unit formals.now actuals.now) }
{
    push_save(steps, first)?;
    push_constants(steps, first + 2, formals, actuals)?;
    push_end_word(steps)?;
    let vars = variables(alloc, first + 2, formals, actuals)?;
    steps.push(Stmt::Invoke(unit, vars))?;
    push_put_back(steps, first)
}

/// Appends the statements of a call of a function block.
fn push_function_block_call(
    alloc: Global,
    steps: &mut List<Stmt>,
    first: u32,
    unit: u32,
    instance: u16,
    formals: &[Formal],
    actuals: &[Actual],
) -> Result<(), NoMemory>
    requires { first + 2 + length (types_of_operands formals.now actuals.now) < 2 ^ 32 }
    ensures { OnOk result (steps.new ≡ steps.old ++ function_block_call_of first unit instance formals.now actuals.now) }
{
    push_save(steps, first)?;
    push_operands(steps, first + 2, formals, actuals)?;
    push_copies_in(steps, instance, formals, actuals)?;
    push_end_word(steps)?;
    push_call_with_instance(alloc, steps, first, unit, instance)?;
    push_copies_back(steps, instance, formals, actuals)
}

/// Appends the call itself of a function block: its instance is opened, and DBNO and DINO are put back after it.
fn push_call_with_instance(
    alloc: Global,
    steps: &mut List<Stmt>,
    first: u32,
    unit: u32,
    instance: u16,
) -> Result<(), NoMemory>
    requires { first + 1 < 2 ^ 32 }
    ensures { OnOk result (steps.new ≡ steps.old ++ opened_call_of first unit instance) }
{
    let number = constant(StType::Word, i64::from(instance));
    steps.push(set_register(Reg::DiNo, number))?;
    steps.push(Stmt::Invoke(unit, List::new(alloc)))?;
    push_put_back(steps, first)
}

/// Appends the statements of `CC`.
pub fn push_call_if(
    alloc: Global,
    steps: &mut List<Stmt>,
    first: u32,
    unit: u32,
) -> Result<(), NoMemory>
    requires { first + 2 < 2 ^ 32 }
    ensures { OnOk result (steps.new ≡ steps.old ++ call_if_of first unit) }
{
    steps.push(set_local(first, read(Reg::Rlo)))?;
    steps.push(set_register(Reg::Rlo, literal(true)))?;
    push_end_word(steps)?;
    let call = guarded_call(alloc, first + 1, first, unit)?;
    steps.push(call)
}

/// A call without actuals, where a local is TRUE.
fn guarded_call(alloc: Global, first: u32, question: u32, unit: u32) -> Result<Stmt, NoMemory>
    requires { first + 1 < 2 ^ 32 }
    ensures { IfOk result (λ step. step ≡ guarded_of first question unit) }
{
    let mut body = List::new(alloc);
    push_save(&mut body, first)?;
    body.push(Stmt::Invoke(unit, List::new(alloc)))?;
    push_put_back(&mut body, first)?;
    let mut arms = List::new(alloc);
    arms.push(Arm {
        test: local(question),
        body,
    })?;
    Ok(Stmt::If(arms, List::new(alloc)))
}
