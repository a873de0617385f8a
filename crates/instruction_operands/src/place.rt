//! Written places, and components as places.
ghost use Rattle.std.specs.Prelude.{◌≡◌, None, Some, if◌then◌else◌};
ghost use Rattle.stl_rules.specs.Raw.{given_component, given_place, given_symbol, is_placed, operand_at, place_of_kind};
ghost use Rattle.stl_rules.specs.declared.resolved_operand.ResolvedOperand.TheVariants as behind;

use crate::number::may_have;
use memory_areas::AreaName;
use stl_places::is_in_area;
use stl_rules::{Component, ResolvedOperand};
use stl_tree::{BlockKind, ElemType, Operand, RawPlace, SymbolAddress};
use symbol_layout::width_of;

/// A written place without the number of a data block, as an operand.
fn given_direct(place: RawPlace) -> ResolvedOperand
    ensures { result ≡ (if is_placed place None then operand_at place None else behind.Outside place.area place.width) }
{
    if is_in_area(place) {
        let operand = Operand::Direct(place.area, place.byte, place.bit as u8);
        ResolvedOperand::At(operand, place.width)
    } else {
        ResolvedOperand::Outside(place.area, place.width)
    }
}

/// A written place after the number of a data block, as an operand.
fn given_opened(place: RawPlace, number: u32) -> ResolvedOperand
    ensures { result ≡ (if is_placed place (Some number) then operand_at place (Some number) else behind.Outside place.area place.width) }
{
    if is_in_area(place) && may_have(BlockKind::Db, number) {
        let operand = Operand::Opened(number as u16, place.byte, place.bit as u8);
        ResolvedOperand::At(operand, place.width)
    } else {
        ResolvedOperand::Outside(place.area, place.width)
    }
}

/// A written place as an operand, inside its area or outside it.
pub fn given_place(place: RawPlace) -> ResolvedOperand
    ensures { result ≡ given_place place }
{
    match place.block {
        Some(number) => given_opened(place, number),
        None => given_direct(place),
    }
}

/// A symbol as an operand.
pub fn given_symbol(address: Option<SymbolAddress>) -> ResolvedOperand
    ensures { result ≡ given_symbol address }
{
    match address {
        None => ResolvedOperand::Unknown,
        Some(SymbolAddress::At(place)) => given_place(place),
        Some(_) => ResolvedOperand::Unfit,
    }
}

/// A component as the place that it lies at.
fn place_of_kind(
    number: Option<u32>,
    area: AreaName,
    at: Component,
    kind: Option<ElemType>,
) -> ResolvedOperand
    ensures { result ≡ place_of_kind number area at kind }
{
    match kind {
        None => ResolvedOperand::Unfit,
        Some(kind) => given_place(RawPlace {
            block: number,
            area,
            width: width_of(kind),
            byte: at.byte,
            bit: u32::from(at.bit),
        }),
    }
}

/// What a path names, by the component that it names.
pub fn given_component(
    number: Option<u32>,
    area: AreaName,
    at: Option<Component>,
) -> ResolvedOperand
    ensures { result ≡ given_component number area at }
{
    match at {
        None => ResolvedOperand::Unknown,
        Some(at) => place_of_kind(number, area, at, at.kind),
    }
}
