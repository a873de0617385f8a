//! The types of expressions by those of their operands.
ghost use Rattle.std.specs.Prelude.{◌≡◌};
ghost use Rattle.memory_areas.specs.Access.{bits_wide};
ghost use Rattle.st_tree.specs.Values.{width_of};
ghost use Rattle.st_tree.specs.TypeRules.{has_bits, has_numbers, has_width, is_selector, is_type, place_of, type_of_binary, type_of_choice, type_of_conversion, type_of_read, type_of_shift, type_of_unary, type_on_equals, where_true};

use crate::expr::{BinaryOp, StType, UnaryOp};
use crate::types::type_of_width;
use s7_base::Width;

fn place_of(ty: StType) -> u32
    ensures { result ≡ place_of ty }
{
    ty as u32
}

/// Whether two types are equal.
pub fn is_type(a: StType, b: StType) -> bool
    ensures { result ≡ is_type a b }
{
    place_of(a) == place_of(b)
}

fn has_bits(ty: StType) -> bool
    ensures { result ≡ has_bits ty }
{
    place_of(ty) < 4
}

fn has_numbers(ty: StType) -> bool
    ensures { result ≡ has_numbers ty }
{
    !has_bits(ty)
}

fn where_true(test: bool, ty: StType) -> Option<StType>
    ensures { result ≡ where_true test ty }
{
    if test { Some(ty) } else { None }
}

/// The type that minus, NOT or a BCD conversion gives; `None` where the operand has another type than
/// it takes.
pub fn type_of_unary(op: UnaryOp, ty: StType) -> Option<StType>
    ensures { result ≡ type_of_unary op ty }
{
    match op {
        UnaryOp::Minus => where_true(has_numbers(ty), ty),
        UnaryOp::Not => where_true(has_bits(ty), ty),
        UnaryOp::BcdToInt => where_true(is_type(ty, StType::Word), StType::Int),
        UnaryOp::BcdToDint => where_true(is_type(ty, StType::Dword), StType::Dint),
    }
}

fn type_on_equals(op: BinaryOp, ty: StType) -> Option<StType>
    ensures { result ≡ type_on_equals op ty }
{
    match op {
        BinaryOp::Mul | BinaryOp::Div | BinaryOp::Mod | BinaryOp::Add | BinaryOp::Sub => {
            where_true(has_numbers(ty), ty)
        }
        BinaryOp::Lt | BinaryOp::Gt | BinaryOp::Le | BinaryOp::Ge | BinaryOp::Eq | BinaryOp::Ne =>
            Some(StType::Bool),
        BinaryOp::And | BinaryOp::Xor | BinaryOp::Or => where_true(has_bits(ty), ty),
    }
}

/// The type that an operator between two operands gives; `None` where their types differ or it takes
/// none of that type.
pub fn type_of_binary(op: BinaryOp, a: StType, b: StType) -> Option<StType>
    ensures { result ≡ type_of_binary op a b }
{
    if is_type(a, b) {
        type_on_equals(op, a)
    } else {
        None
    }
}

/// The type that `A_TO_B` gives; `None` where the operand is no A.
pub fn type_of_conversion(from: StType, to: StType, ty: StType) -> Option<StType>
    ensures { result ≡ type_of_conversion from to ty }
{
    where_true(is_type(ty, from), to)
}

/// The type that SEL gives; `None` where the gate is no BOOL or the two values differ in type.
pub fn type_of_choice(gate: StType, a: StType, b: StType) -> Option<StType>
    ensures { result ≡ type_of_choice gate a b }
{
    where_true(is_type(gate, StType::Bool) && is_type(a, b), a)
}

/// The type that a shift or a rotation gives; `None` where the value is a number or the count is no
/// INT.
pub fn type_of_shift(ty: StType, count: StType) -> Option<StType>
    ensures { result ≡ type_of_shift ty count }
{
    where_true(has_bits(ty) && is_type(count, StType::Int), ty)
}

/// The type that a read through a pointer gives; `None` where the pointer is no DWORD.
pub fn type_of_read(width: Width, pointer: StType) -> Option<StType>
    ensures { result ≡ type_of_read width pointer }
{
    where_true(is_type(pointer, StType::Dword), type_of_width(width))
}

/// Whether a CASE may have a selector of this type.
pub fn is_selector(ty: StType) -> bool
    ensures { result ≡ is_selector ty }
{
    is_type(ty, StType::Int) || is_type(ty, StType::Dint)
}

fn bits_wide(width: Width) -> u32
    ensures { result ≡ bits_wide width }
{
    match width {
        Width::Bit => 1,
        Width::Byte => 8,
        Width::Word => 16,
        Width::Dword => 32,
    }
}

fn width_of(ty: StType) -> u32
    ensures { result ≡ width_of ty }
{
    match ty {
        StType::Bool => 1,
        StType::Byte => 8,
        StType::Word | StType::Int => 16,
        StType::Dword | StType::Dint => 32,
        StType::Lint => 64,
    }
}

/// Whether a location of this width has the type's width.
pub fn has_width(ty: StType, width: Width) -> bool
    ensures { result ≡ has_width ty width }
{
    width_of(ty) == bits_wide(width)
}
