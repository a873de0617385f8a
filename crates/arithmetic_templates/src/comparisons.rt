//! Comparisons of whole numbers.
ghost use Rattle.std.specs.Prelude.{◌≡◌, ◌++◌, ◌+◌, ◌<◌, ◌^◌, IfOk, OnOk};
ghost use Rattle.arithmetic_templates.specs.Comparisons.{compared_of, comparison_of, types_of_compared};
ghost use Rattle.template_parts.specs.Builders.{binary_of, local_of};

use crate::numbers::number;
use s7_base::{List, NoMemory, Reg, Width};
use st_tree::{BinaryOp, Expr, StType, Stmt};
use status_word::Test;
use std::alloc::Global;
use template_parts::{binary, literal, local, push_clear_or, set_local, set_register};

/// An operator between two locals.
fn between(alloc: Global, op: BinaryOp, left: u32, right: u32) -> Result<Expr, NoMemory>
    ensures { IfOk result (λ value. value ≡ binary_of op (local_of left) (local_of right)) }
{
    binary(alloc, op, local(left), local(right))
}

/// How two locals compare.
fn comparison(alloc: Global, test: Test, left: u32, right: u32) -> Result<Expr, NoMemory>
    ensures { IfOk result (λ value. value ≡ comparison_of test (local_of left) (local_of right)) }
{
    match test {
        Test::Eq => between(alloc, BinaryOp::Eq, left, right),
        Test::Ne => between(alloc, BinaryOp::Ne, left, right),
        Test::Gt => between(alloc, BinaryOp::Gt, left, right),
        Test::Lt => between(alloc, BinaryOp::Lt, left, right),
        Test::Ge => between(alloc, BinaryOp::Ge, left, right),
        Test::Le => between(alloc, BinaryOp::Le, left, right),
        Test::Uo | Test::Ov | Test::Os | Test::Br => Ok(literal(false)),
    }
}

/// Appends the statements of a comparison, whose locals are those from `first` on.
pub fn push_compared(
    alloc: Global,
    steps: &mut List<Stmt>,
    first: u32,
    test: Test,
    width: Width,
) -> Result<(), NoMemory>
    requires { first + 8 < 2 ^ 32 }
    ensures { OnOk result (steps.new ≡ steps.old ++ compared_of first test width) }
{
    let left = number(alloc, width, Reg::Accu2)?;
    steps.push(set_local(first, left))?;
    let right = number(alloc, width, Reg::Accu1)?;
    steps.push(set_local(first + 1, right))?;
    let answer = comparison(alloc, test, first, first + 1)?;
    steps.push(set_register(Reg::Rlo, answer))?;
    let above = between(alloc, BinaryOp::Gt, first, first + 1)?;
    steps.push(set_register(Reg::Cc1, above))?;
    let below = between(alloc, BinaryOp::Lt, first, first + 1)?;
    steps.push(set_register(Reg::Cc0, below))?;
    steps.push(set_register(Reg::Ov, literal(false)))?;
    push_clear_or(steps, true)
}

/// The types of the locals of a comparison, in their order.
pub fn types_of_compared(width: Width) -> &'static [StType]
    ensures { result.now ≡ types_of_compared width }
{
    match width {
        Width::Dword => &[StType::Dint, StType::Dint],
        _ => &[StType::Int, StType::Int],
    }
}
