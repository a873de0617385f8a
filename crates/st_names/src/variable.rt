//! Written variables: what they are in the tree and their types, or the rule that they break.
ghost use Rattle.std.specs.Prelude.{◌≡◌, IfOk};
ghost use Rattle.st_tree.specs.PlaceRules.{is_block_number};
ghost use Rattle.st_names.specs.Variables.{is_address, is_place, place_at, variable, variable_named};

use crate::scope::{Meaning, NameScope};
use memory_areas::{AreaName, is_byte_in};
use s7_base::{NoMemory, Reason, Width};
use st_tree::{RawVar, StType, Var, key_of, type_of_register, type_of_width};
use std::alloc::Global;

/// A variable of the tree, and its type.
#[derive(Clone, Copy, Debug, PartialEq, Eq)]
pub struct TypedVar {
    pub ty: StType,
    pub var: Var,
}

/// Whether a data block may have this number, 1 to 65,535.
pub fn is_block_number(number: u32) -> bool
    ensures { result ≡ is_block_number number }
{
    1 <= number && number <= 65535
}

/// Whether the byte and the bit of a written address are ones that its area may have.
pub fn is_place(area: AreaName, width: Width, byte: u32, bit: u32) -> bool
    ensures { result ≡ is_place area width byte bit }
{
    is_byte_in(area, width, byte) && bit <= 7
}

/// Whether a written address is one that there may be.
pub fn is_address(area: AreaName, block: Option<u32>, width: Width, byte: u32, bit: u32) -> bool
    ensures { result ≡ is_address area block width byte bit }
{
    match block {
        None => is_place(area, width, byte, bit),
        Some(number) => is_block_number(number) && is_place(AreaName::Db, width, byte, bit),
    }
}

fn place_at(
    area: AreaName,
    block: Option<u32>,
    width: Width,
    byte: u32,
    bit: u32,
) -> Result<TypedVar, Reason>
    ensures { result ≡ place_at area block width byte bit }
{
    let ty = type_of_width(width);
    match block {
        None => {
            if is_place(area, width, byte, bit) {
                let var = Var::Direct(area, byte, bit as u8, width);
                Ok(TypedVar { ty, var })
            } else {
                Err(Reason::BadAddress)
            }
        }
        Some(number) => {
            if is_block_number(number) && is_place(AreaName::Db, width, byte, bit) {
                let var = Var::InBlock(number as u16, byte, bit as u8, width);
                Ok(TypedVar { ty, var })
            } else {
                Err(Reason::BadAddress)
            }
        }
    }
}

fn variable_named(meaning: Option<Meaning>) -> Result<TypedVar, Reason>
    ensures { result ≡ variable_named meaning }
{
    match meaning {
        None => Err(Reason::UnknownName),
        Some(Meaning::Register(register)) => Ok(TypedVar {
            ty: type_of_register(register),
            var: Var::Register(register),
        }),
        Some(Meaning::Formal(position, ty)) => Ok(TypedVar {
            ty,
            var: Var::Formal(position),
        }),
        Some(Meaning::Local(position, ty)) => Ok(TypedVar {
            ty,
            var: Var::Local(position),
        }),
        Some(Meaning::Global(position, ty)) => Ok(TypedVar {
            ty,
            var: Var::Global(position),
        }),
        Some(Meaning::Block | Meaning::Program | Meaning::Function(_)) => {
            Err(Reason::TypeMismatch)
        }
    }
}

/// A variable as it is written.
pub fn variable(
    alloc: Global,
    scope: &NameScope,
    raw: &RawVar,
) -> Result<Result<TypedVar, Reason>, NoMemory>
    ensures { IfOk result (λ answer. answer ≡ variable scope.now raw.now) }
{
    match raw {
        RawVar::Name(name) => {
            let key = key_of(alloc, name.as_slice())?;
            Ok(variable_named(scope.meaning(key.as_slice())))
        }
        RawVar::Direct(area, block, width, byte, bit) => {
            Ok(place_at(*area, *block, *width, *byte, *bit))
        }
    }
}
