//! Pointers as an instruction takes them: with the area code of its operand, or with that of an address
//! register.
ghost use Rattle.std.specs.Prelude.{◌≡◌, ◌<◌, IfOk};
ghost use Rattle.stl_tree.specs.Reads.{register_of};
ghost use Rattle.template_parts.specs.Pointing.{crossing_of, in_area_of, place_in_of, sum_of};

use crate::builders::{and, binary, bits_under, constant, convert, or, read};
use memory_areas::AreaName;
use s7_base::{NoMemory, Reg};
use st_tree::{BinaryOp, Expr, StType};
use std::alloc::Global;
use stl_tree::Ar;

/// The register variable of AR1 or AR2.
pub fn register_of(ar: Ar) -> Reg
    ensures { result ≡ register_of ar }
{
    match ar {
        Ar::One => Reg::Ar1,
        Ar::Two => Reg::Ar2,
    }
}

/// A pointer with the code of an area instead of its own.
pub fn in_area(alloc: Global, area: AreaName, pointer: Expr) -> Result<Expr, NoMemory>
    ensures { IfOk result (λ value. value ≡ in_area_of area pointer) }
{
    let place = place_in(alloc, pointer)?;
    let code = i64::from(area.code()) * 0x0100_0000;
    or(alloc, place, constant(StType::Dword, code))
}

/// An address register and an offset, added.
pub fn sum(alloc: Global, ar: Ar, offset: u32) -> Result<Expr, NoMemory>
    ensures { IfOk result (λ value. value ≡ sum_of ar offset) }
{
    let number = convert(alloc, StType::Dword, StType::Dint, read(register_of(ar)))?;
    let added = constant(StType::Dint, i64::from(offset));
    let total = binary(alloc, BinaryOp::Add, number, added)?;
    convert(alloc, StType::Dint, StType::Dword, total)
}

/// An address register with an offset added to its byte and bit number alone.
pub fn crossing(alloc: Global, ar: Ar, offset: u32) -> Result<Expr, NoMemory>
    ensures { IfOk result (λ value. value ≡ crossing_of ar offset) }
{
    let total = sum(alloc, ar, offset)?;
    let place = place_in(alloc, total)?;
    let above = bits_under(alloc, register_of(ar), 0xFFF8_0000)?;
    or(alloc, above, place)
}

/// The byte and bit number of a pointer.
fn place_in(alloc: Global, pointer: Expr) -> Result<Expr, NoMemory>
    ensures { IfOk result (λ value. value ≡ place_in_of pointer) }
{
    and(alloc, pointer, constant(StType::Dword, 0x0007_FFFF))
}
