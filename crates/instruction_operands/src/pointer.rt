//! Written pointers, and what they name.
ghost use Rattle.std.specs.Prelude.{◌≡◌, ◌&&◌};
ghost use Rattle.memory_areas.specs.declared.place.AreaName.TheVariants as area;
ghost use Rattle.s7_base.specs.declared.word.Width.TheVariants as wide;
ghost use Rattle.stl_rules.specs.Raw.{given_held, given_if, given_pointer, may_stand};
ghost use Rattle.stl_rules.specs.declared.resolved_operand.ResolvedOperand.TheVariants as behind;
ghost use Rattle.stl_statement_grammar.specs.Constants.{constant};
ghost use Rattle.stl_statement_grammar.specs.Pointers.{is_in_reach, offset_of};
ghost use Rattle.stl_tree.specs.declared.program.Operand.TheVariants as operand;

use memory_areas::{AreaName, is_byte_in};
use s7_base::Width;
use stl_places::{offset_value, pointer_value};
use stl_rules::ResolvedOperand;
use stl_tree::{Ar, Constant, Operand, RawPlace, RawPointer, may_hold_pointers};

/// Whether a pointer, or the number of a data block, of a width may be stored at a written place.
fn may_stand(width: Width, place: RawPlace) -> bool
    ensures { result ≡ may_stand width place }
{
    may_hold_pointers(place.area) && is_byte_in(place.area, width, place.byte)
}

/// A pointer as a constant.
pub fn pointer_constant(value: u32) -> Constant
    ensures { result ≡ constant wide.Dword value }
{
    Constant {
        width: Width::Dword,
        signed: false,
        binary: false,
        value,
    }
}

/// A written pointer as an operand, where its numbers are in their ranges.
pub fn given_pointer(pointer: RawPointer) -> ResolvedOperand
    ensures { result ≡ given_pointer pointer }
{
    match pointer_value(pointer) {
        Some(value) => ResolvedOperand::Constant(pointer_constant(value)),
        None => ResolvedOperand::NoPointer,
    }
}

/// The operand that a pointer in memory names.
pub fn given_by_memory(area: AreaName, width: Width, place: RawPlace) -> ResolvedOperand
    ensures { result ≡ given_if (may_stand wide.Dword place) area width (operand.ByMemory area place.area place.byte) }
{
    if may_stand(Width::Dword, place) {
        ResolvedOperand::At(Operand::ByMemory(area, place.area, place.byte), width)
    } else {
        ResolvedOperand::Outside(area, width)
    }
}

/// The operand that an address register and an offset name in an area.
pub fn given_by_register(
    area: AreaName,
    width: Width,
    ar: Ar,
    offset: RawPointer,
) -> ResolvedOperand
    ensures { result ≡ given_if (is_in_reach offset) area width (operand.ByRegister area ar (offset_of offset)) }
{
    match offset_value(offset) {
        Some(offset) => ResolvedOperand::At(Operand::ByRegister(area, ar, offset), width),
        None => ResolvedOperand::Outside(area, width),
    }
}

/// The operand that an address register and an offset name in the area of the register.
pub fn given_crossing(width: Width, ar: Ar, offset: RawPointer) -> ResolvedOperand
    ensures { result ≡ given_if (is_in_reach offset) area.M width (operand.Crossing ar (offset_of offset)) }
{
    match offset_value(offset) {
        Some(offset) => ResolvedOperand::At(Operand::Crossing(ar, offset), width),
        None => ResolvedOperand::Outside(AreaName::M, width),
    }
}

/// The operand of OPN for the data block whose number is in a word.
pub fn given_db_by(place: RawPlace) -> ResolvedOperand
    ensures { result ≡ given_held (λ o. behind.DbBy o) place }
{
    if may_stand(Width::Word, place) {
        ResolvedOperand::DbBy(Operand::Direct(place.area, place.byte, 0))
    } else {
        ResolvedOperand::NoNumber
    }
}

/// The operand of OPN for the instance whose number is in a word.
pub fn given_di_by(place: RawPlace) -> ResolvedOperand
    ensures { result ≡ given_held (λ o. behind.DiBy o) place }
{
    if may_stand(Width::Word, place) {
        ResolvedOperand::DiBy(Operand::Direct(place.area, place.byte, 0))
    } else {
        ResolvedOperand::NoNumber
    }
}
