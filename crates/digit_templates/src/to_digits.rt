//! Numbers written in decimal digits.
//!
//! Four locals are taken, from `first` on: the number, its amount, whether it has too many digits, and the pattern of
//! its digits.
ghost use Rattle.std.specs.Prelude.{◌≡◌, ◌<◌, ◌+◌, ◌^◌, ◌++◌, pos, IfOk, OnOk};
ghost use Rattle.digit_templates.specs.ToDigits.{amount_of, below_zero_of, digits_of, dtb_of, itb_of, measured_of, noted_of, placed_digit_of, sign_digit_of, under_sign_of, taken_of, types_of_dtb, types_of_itb, with_digit_of};
ghost use Rattle.template_parts.specs.Builders.{local_of};

use s7_base::{List, NoMemory, Reg};
use st_tree::{BinaryOp, Expr, StType, Stmt, UnaryOp};
use std::alloc::Global;
use template_parts::{
    binary, constant, convert, local, or, read, select, set_local, set_register, unary, with_low,
};

/// The statements of ITB.
pub fn push_itb(alloc: Global, steps: &mut List<Stmt>, first: u32) -> Result<(), NoMemory>
    requires { first + 8 < 2 ^ 32 }
    ensures { OnOk result (steps.new ≡ steps.old ++ itb_of first) }
{
    let ty = StType::Dint;
    let word = convert(alloc, StType::Dword, StType::Int, read(Reg::Accu1))?;
    let number = convert(alloc, StType::Int, ty, word)?;
    push_measured(alloc, steps, ty, first, number, 999)?;
    let digits = three_digits(alloc, ty, first + 1)?;
    let pattern = under_sign(alloc, ty, first, digits, 0xF000)?;
    push_noted(alloc, steps, first, pattern)?;
    let word = convert(alloc, ty, StType::Word, local(first + 3))?;
    let written = with_low(alloc, word)?;
    push_taken(alloc, steps, first, written)
}

/// The types of the locals of ITB.
pub fn types_of_itb() -> &'static [StType]
    ensures { result.now ≡ types_of_itb }
{
    &[StType::Dint, StType::Dint, StType::Bool, StType::Dint]
}

/// The statements of DTB.
pub fn push_dtb(alloc: Global, steps: &mut List<Stmt>, first: u32) -> Result<(), NoMemory>
    requires { first + 8 < 2 ^ 32 }
    ensures { OnOk result (steps.new ≡ steps.old ++ dtb_of first) }
{
    let ty = StType::Lint;
    let dword = convert(alloc, StType::Dword, StType::Dint, read(Reg::Accu1))?;
    let number = convert(alloc, StType::Dint, ty, dword)?;
    push_measured(alloc, steps, ty, first, number, 9_999_999)?;
    let digits = seven_digits(alloc, ty, first + 1)?;
    let pattern = under_sign(alloc, ty, first, digits, 0xF000_0000)?;
    push_noted(alloc, steps, first, pattern)?;
    let written = convert(alloc, ty, StType::Dword, local(first + 3))?;
    push_taken(alloc, steps, first, written)
}

/// The types of the locals of DTB.
pub fn types_of_dtb() -> &'static [StType]
    ensures { result.now ≡ types_of_dtb }
{
    &[StType::Lint, StType::Lint, StType::Bool, StType::Lint]
}

/// The first three locals take the number, its amount, and whether that is too great for the digits.
fn push_measured(
    alloc: Global,
    steps: &mut List<Stmt>,
    ty: StType,
    first: u32,
    number: Expr,
    greatest: i64,
) -> Result<(), NoMemory>
    requires { first + 8 < 2 ^ 32 }
    ensures { OnOk result (steps.new ≡ steps.old ++ measured_of ty first number greatest) }
{
    steps.push(set_local(first, number))?;
    let amount = amount(alloc, ty, first)?;
    steps.push(set_local(first + 1, amount))?;
    let over = binary(
        alloc,
        BinaryOp::Gt,
        local(first + 1),
        constant(ty, greatest),
    )?;
    steps.push(set_local(first + 2, over))
}

/// The fourth local takes the pattern, and OV and OS take the overflow.
fn push_noted(
    alloc: Global,
    steps: &mut List<Stmt>,
    first: u32,
    pattern: Expr,
) -> Result<(), NoMemory>
    requires { first + 8 < 2 ^ 32 }
    ensures { OnOk result (steps.new ≡ steps.old ++ noted_of first pattern) }
{
    steps.push(set_local(first + 3, pattern))?;
    steps.push(set_register(Reg::Ov, local(first + 2)))?;
    let overflowed = or(alloc, read(Reg::Os), local(first + 2))?;
    steps.push(set_register(Reg::Os, overflowed))
}

/// ACCU1 takes `written` where there is no overflow.
fn push_taken(
    alloc: Global,
    steps: &mut List<Stmt>,
    first: u32,
    written: Expr,
) -> Result<(), NoMemory>
    requires { first + 8 < 2 ^ 32 }
    ensures { OnOk result (steps.new ≡ steps.old ++ taken_of first written) }
{
    let accu1 = select(alloc, local(first + 2), written, read(Reg::Accu1))?;
    steps.push(set_register(Reg::Accu1, accu1))
}

/// Whether the number in a local is below 0.
fn below_zero(alloc: Global, ty: StType, number: u32) -> Result<Expr, NoMemory>
    ensures { IfOk result (λ value. value ≡ below_zero_of ty (local_of number)) }
{
    binary(alloc, BinaryOp::Lt, local(number), constant(ty, 0))
}

/// The amount of the number in a local.
fn amount(alloc: Global, ty: StType, number: u32) -> Result<Expr, NoMemory>
    ensures { IfOk result (λ value. value ≡ amount_of ty (local_of number)) }
{
    let negated = unary(alloc, UnaryOp::Minus, local(number))?;
    let below = below_zero(alloc, ty, number)?;
    select(alloc, below, local(number), negated)
}

/// Three digits of the amount in a local.
fn three_digits(alloc: Global, ty: StType, amount: u32) -> Result<Expr, NoMemory>
    ensures { IfOk result (λ value. value ≡ digits_of ty (local_of amount) 2) }
{
    let one = binary(alloc, BinaryOp::Mod, local(amount), constant(ty, 10))?;
    let two = with_digit(alloc, ty, amount, one, 10, 0x10)?;
    with_digit(alloc, ty, amount, two, 100, 0x100)
}

/// Seven digits of the amount in a local.
fn seven_digits(alloc: Global, ty: StType, amount: u32) -> Result<Expr, NoMemory>
    ensures { IfOk result (λ value. value ≡ digits_of ty (local_of amount) 6) }
{
    let three = three_digits(alloc, ty, amount)?;
    let four = with_digit(alloc, ty, amount, three, 1000, 0x1000)?;
    let five = with_digit(alloc, ty, amount, four, 10_000, 0x1_0000)?;
    let six = with_digit(alloc, ty, amount, five, 100_000, 0x10_0000)?;
    with_digit(alloc, ty, amount, six, 1_000_000, 0x100_0000)
}

/// The digit of the amount in a local that counts as a power of ten, at its place in a pattern.
fn placed_digit(
    alloc: Global,
    ty: StType,
    amount: u32,
    power: i64,
    place: i64,
) -> Result<Expr, NoMemory>
    ensures { IfOk result (λ value. value ≡ placed_digit_of ty (local_of amount) power place) }
{
    let above = binary(alloc, BinaryOp::Div, local(amount), constant(ty, power))?;
    let digit = binary(alloc, BinaryOp::Mod, above, constant(ty, 10))?;
    binary(alloc, BinaryOp::Mul, digit, constant(ty, place))
}

/// A sum, and one more digit of the amount in a local, at its place in a pattern.
fn with_digit(
    alloc: Global,
    ty: StType,
    amount: u32,
    sum: Expr,
    power: i64,
    place: i64,
) -> Result<Expr, NoMemory>
    ensures { IfOk result (λ value. value ≡ with_digit_of ty (local_of amount) sum power place) }
{
    let placed = placed_digit(alloc, ty, amount, power, place)?;
    binary(alloc, BinaryOp::Add, sum, placed)
}

/// The sign digit of the number in a local: 0, or `sign` where it is below 0.
fn sign_digit(alloc: Global, ty: StType, number: u32, sign: i64) -> Result<Expr, NoMemory>
    ensures { IfOk result (λ value. value ≡ sign_digit_of ty (local_of number) sign) }
{
    let below = below_zero(alloc, ty, number)?;
    select(alloc, below, constant(ty, 0), constant(ty, sign))
}

/// Digits under the sign digit of the number in a local.
fn under_sign(
    alloc: Global,
    ty: StType,
    number: u32,
    digits: Expr,
    sign: i64,
) -> Result<Expr, NoMemory>
    ensures { IfOk result (λ value. value ≡ under_sign_of ty (local_of number) digits sign) }
{
    let above = sign_digit(alloc, ty, number, sign)?;
    binary(alloc, BinaryOp::Add, digits, above)
}
