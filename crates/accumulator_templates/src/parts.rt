//! Parts of the accumulators, as expressions.
ghost use Rattle.std.specs.Prelude.{◌≡◌, IfOk};
ghost use Rattle.accumulator_templates.specs.AccumulatorParts.{above_byte, any_bit_of, bits_where_of, lowest_bits_of, dword_of, zero_extension_of, with_byte_of};

use s7_base::{NoMemory, Reg, Width};
use st_tree::{BinaryOp, Expr, StType};
use std::alloc::Global;
use template_parts::{and, binary, constant, convert, or, read, select};

/// A DWORD as a constant.
pub fn dword(number: u32) -> Expr
    ensures { result ≡ dword_of number }
{
    constant(StType::Dword, i64::from(number))
}

/// Whether a DWORD is other than zero in the bits of a mask.
pub fn any_bit(alloc: Global, pattern: Expr, mask: u32) -> Result<Expr, NoMemory>
    ensures { IfOk result (λ value. value ≡ any_bit_of pattern mask) }
{
    let masked = and(alloc, pattern, dword(mask))?;
    binary(alloc, BinaryOp::Ne, masked, dword(0))
}

/// A DWORD that has the bits of a mask where a BOOL is TRUE.
pub fn bits_where(alloc: Global, flag: Expr, mask: u32) -> Result<Expr, NoMemory>
    ensures { IfOk result (λ value. value ≡ bits_where_of flag mask) }
{
    select(alloc, flag, dword(0), dword(mask))
}

/// The lowest bits of a DWORD, as a pattern of a width.
pub fn lowest_bits(alloc: Global, width: Width, pattern: Expr) -> Result<Expr, NoMemory>
    ensures { IfOk result (λ value. value ≡ lowest_bits_of width pattern) }
{
    match width {
        Width::Bit => any_bit(alloc, pattern, 1),
        Width::Byte => convert(alloc, StType::Dword, StType::Byte, pattern),
        Width::Word => convert(alloc, StType::Dword, StType::Word, pattern),
        Width::Dword => Ok(pattern),
    }
}

/// A pattern of a width as a DWORD, extended by zeros.
pub fn zero_extension(alloc: Global, width: Width, pattern: Expr) -> Result<Expr, NoMemory>
    ensures { IfOk result (λ value. value ≡ zero_extension_of width pattern) }
{
    match width {
        Width::Bit => bits_where(alloc, pattern, 1),
        Width::Byte => convert(alloc, StType::Byte, StType::Dword, pattern),
        Width::Word => convert(alloc, StType::Word, StType::Dword, pattern),
        Width::Dword => Ok(pattern),
    }
}

/// ACCU1 with another lowest byte.
pub fn with_byte(alloc: Global, pattern: Expr) -> Result<Expr, NoMemory>
    ensures { IfOk result (λ value. value ≡ with_byte_of pattern) }
{
    let byte = zero_extension(alloc, Width::Byte, pattern)?;
    let kept = above_byte(alloc)?;
    or(alloc, kept, byte)
}

/// ACCU1 with its lowest byte zero.
fn above_byte(alloc: Global) -> Result<Expr, NoMemory>
    ensures { IfOk result (λ value. value ≡ above_byte) }
{
    and(alloc, read(Reg::Accu1), dword(0xFFFF_FF00))
}
