//! What a call gives to the formals of a block, and takes from them.
ghost use Rattle.std.specs.Prelude.{◌≡◌, ◌+◌, ◌^◌, ◌<◌, ◌++◌, IfOk, OnOk, length};
ghost use Rattle.call_templates.specs.Calls.{constants_set, copies, copy_back, copy_in, in_instance, number_of_width, operands_read, types_of_constants, types_of_operands, variable_of, variables_given};
ghost use Rattle.stl_tree.specs.Calls.{is_given_back, is_taken};

use memory_areas::AreaName;
use s7_base::{List, NoMemory, Width};
use st_tree::{Expr, StType, Stmt, Var, type_of_width};
use std::alloc::Global;
use stl_tree::{Actual, Formal, Mode, Operand};
use template_parts::{constant, set_local};

/// The variable that names an actual in place; an operand that is found by a pointer is none.
fn variable(operand: Operand, width: Width) -> Var
    ensures { result ≡ variable_of operand width }
{
    match operand {
        Operand::Direct(area, byte, bit) => Var::Direct(area, byte, bit, width),
        Operand::Opened(number, byte, bit) => Var::InBlock(number, byte, bit, width),
        Operand::Formal(position) => Var::Formal(position),
        _ => Var::Direct(AreaName::I, 0, 0, width),
    }
}

/// A constant of a width.
fn number(width: Width, value: u32) -> Expr
    ensures { result ≡ number_of_width width value }
{
    constant(type_of_width(width), i64::from(value))
}

/// Appends the statements that put each constant among the actuals of a function into a local.
pub fn push_constants(
    steps: &mut List<Stmt>,
    next: u32,
    formals: &[Formal],
    actuals: &[Actual],
) -> Result<(), NoMemory>
    requires { next + length (types_of_constants formals.now actuals.now) < 2 ^ 32 }
    ensures { OnOk result (steps.new ≡ steps.old ++ constants_set next formals.now actuals.now) }
{
    let mut next = next;
    for (formal, actual) in formals.iter().zip(actuals) {
        if let Actual::Constant(value) = *actual {
            steps.push(set_local(next, number(formal.width, value)))?;
            next += 1;
        }
    }
    Ok(())
}

/// The variables that a function is given, whose constants are in locals from `next` on.
pub fn variables(
    alloc: Global,
    next: u32,
    formals: &[Formal],
    actuals: &[Actual],
) -> Result<List<Var>, NoMemory>
    requires { next + length (types_of_constants formals.now actuals.now) < 2 ^ 32 }
    ensures { IfOk result (λ vars. vars ≡ variables_given next formals.now actuals.now) }
{
    let mut vars = List::new(alloc);
    let mut next = next;
    for (formal, actual) in formals.iter().zip(actuals) {
        match *actual {
            Actual::Missing => {}
            Actual::Constant(_) => {
                vars.push(Var::Local(next))?;
                next += 1;
            }
            Actual::At(operand) => vars.push(variable(operand, formal.width))?,
        }
    }
    Ok(vars)
}

/// Appends the statements that read each operand among the actuals of a function block into a local.
pub fn push_operands(
    steps: &mut List<Stmt>,
    next: u32,
    formals: &[Formal],
    actuals: &[Actual],
) -> Result<(), NoMemory>
    requires { next + length (types_of_operands formals.now actuals.now) < 2 ^ 32 }
    ensures { OnOk result (steps.new ≡ steps.old ++ operands_read next formals.now actuals.now) }
{
    let mut next = next;
    for (formal, actual) in formals.iter().zip(actuals) {
        if let Actual::At(operand) = *actual {
            steps.push(set_local(next, Expr::Read(variable(operand, formal.width))))?;
            next += 1;
        }
    }
    Ok(())
}

/// A formal in an instance.
fn in_instance(instance: u16, formal: &Formal) -> Var
    ensures { result ≡ in_instance instance formal.now }
{
    Var::InBlock(instance, formal.byte, formal.bit, formal.width)
}

/// Whether a formal takes its value from the actual when its block begins.
fn is_taken(mode: Mode) -> bool
    ensures { result ≡ is_taken mode }
{
    matches!(mode, Mode::Input | Mode::InOut)
}

/// Whether a formal gives its value to the actual when its block has ended.
fn is_given_back(mode: Mode) -> bool
    ensures { result ≡ is_given_back mode }
{
    matches!(mode, Mode::Output | Mode::InOut)
}

/// Appends the statement that copies an actual to its formal, if that takes it.
fn push_copy_in(
    steps: &mut List<Stmt>,
    instance: u16,
    formal: &Formal,
    actual: Actual,
) -> Result<(), NoMemory>
    ensures { OnOk result (steps.new ≡ steps.old ++ copy_in instance formal.now actual) }
{
    let value = match actual {
        Actual::Missing => return Ok(()),
        Actual::Constant(value) => number(formal.width, value),
        Actual::At(operand) => Expr::Read(variable(operand, formal.width)),
    };
    if is_taken(formal.mode) {
        steps.push(Stmt::Assign(in_instance(instance, formal), value))?;
    }
    Ok(())
}

/// Appends the statement that copies a formal to its actual, if it gives its value back.
fn push_copy_back(
    steps: &mut List<Stmt>,
    instance: u16,
    formal: &Formal,
    actual: Actual,
) -> Result<(), NoMemory>
    ensures { OnOk result (steps.new ≡ steps.old ++ copy_back instance formal.now actual) }
{
    match actual {
        Actual::At(operand) if is_given_back(formal.mode) => {
            let value = Expr::Read(in_instance(instance, formal));
            steps.push(Stmt::Assign(variable(operand, formal.width), value))
        }
        _ => Ok(()),
    }
}

/// Appends the statements that copy actuals to their formals.
pub fn push_copies_in(
    steps: &mut List<Stmt>,
    instance: u16,
    formals: &[Formal],
    actuals: &[Actual],
) -> Result<(), NoMemory>
    ensures { OnOk result (steps.new ≡ steps.old ++ copies (copy_in instance) formals.now actuals.now) }
{
    for (formal, actual) in formals.iter().zip(actuals) {
        push_copy_in(steps, instance, formal, *actual)?;
    }
    Ok(())
}

/// Appends the statements that copy formals to their actuals.
pub fn push_copies_back(
    steps: &mut List<Stmt>,
    instance: u16,
    formals: &[Formal],
    actuals: &[Actual],
) -> Result<(), NoMemory>
    ensures { OnOk result (steps.new ≡ steps.old ++ copies (copy_back instance) formals.now actuals.now) }
{
    for (formal, actual) in formals.iter().zip(actuals) {
        push_copy_back(steps, instance, formal, *actual)?;
    }
    Ok(())
}

/// Appends the types of the locals of the constants of a function.
pub fn push_types_of_constants(
    types: &mut List<StType>,
    formals: &[Formal],
    actuals: &[Actual],
) -> Result<(), NoMemory>
    ensures { OnOk result (types.new ≡ types.old ++ types_of_constants formals.now actuals.now) }
{
    for (formal, actual) in formals.iter().zip(actuals) {
        if let Actual::Constant(_) = *actual {
            types.push(type_of_width(formal.width))?;
        }
    }
    Ok(())
}

/// Appends the types of the locals of the operands of a function block.
pub fn push_types_of_operands(
    types: &mut List<StType>,
    formals: &[Formal],
    actuals: &[Actual],
) -> Result<(), NoMemory>
    ensures { OnOk result (types.new ≡ types.old ++ types_of_operands formals.now actuals.now) }
{
    for (formal, actual) in formals.iter().zip(actuals) {
        if let Actual::At(_) = *actual {
            types.push(type_of_width(formal.width))?;
        }
    }
    Ok(())
}
