//! The types of registers and of places of a width, and the widths of places that hold values of a type.
ghost use Rattle.std.specs.Prelude.{◌≡◌};
ghost use Rattle.st_tree.specs.State.{type_of_register};
ghost use Rattle.st_tree.specs.Values.{type_of_width, width_at};

use crate::expr::StType;
use s7_base::{Reg, Width};

/// The type of a register.
pub fn type_of_register(register: Reg) -> StType
    ensures { result ≡ type_of_register register }
{
    match register {
        Reg::Accu1 | Reg::Accu2 | Reg::Ar1 | Reg::Ar2 => StType::Dword,
        Reg::DbNo | Reg::DiNo => StType::Word,
        Reg::Nfc
        | Reg::Rlo
        | Reg::Sta
        | Reg::Orb
        | Reg::Os
        | Reg::Ov
        | Reg::Cc0
        | Reg::Cc1
        | Reg::Br => StType::Bool,
    }
}

/// The bit type of a width.
pub fn type_of_width(width: Width) -> StType
    ensures { result ≡ type_of_width width }
{
    match width {
        Width::Bit => StType::Bool,
        Width::Byte => StType::Byte,
        Width::Word => StType::Word,
        Width::Dword => StType::Dword,
    }
}

/// The width of a place that holds a value of a type.
pub fn width_at(ty: StType) -> Width
    ensures { result ≡ width_at ty }
{
    match ty {
        StType::Bool => Width::Bit,
        StType::Byte => Width::Byte,
        StType::Word | StType::Int => Width::Word,
        StType::Dword | StType::Dint | StType::Lint => Width::Dword,
    }
}
