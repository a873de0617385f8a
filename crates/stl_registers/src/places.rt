//! Numbers at places of a memory.
ghost use Rattle.std.specs.Prelude.{◌≡◌, ◌<◌, ◌^◌, IfOk};
ghost use Rattle.memory_areas.specs.Access.{bits_wide};
ghost use Rattle.memory_areas.specs.Memory.{IsActivation, Writes};
ghost use Rattle.stl_tree.specs.Accumulators.{part, read_number, write_number};

use memory_areas::{Memory, Place};
use s7_base::{Fault, Width, low_byte, low_word};

/// The number of a width at a place.
pub fn read_number(memory: &Memory, place: Place, width: Width) -> Result<u32, Fault>
    requires { IsActivation place.area }
    ensures value { result ≡ read_number width place memory.now }
    ensures few { IfOk result (λ v. v < 2 ^ bits_wide width) }
{
    match width {
        Width::Bit => Ok(u32::from(memory.read_bit(place)?)),
        Width::Byte => Ok(u32::from(memory.read_byte(place)?)),
        Width::Word => Ok(u32::from(memory.read_word(place)?)),
        Width::Dword => memory.read_dword(place),
    }
}

/// Writes the lowest bits of a number at a place, as many as a width has; a refused write leaves the memory
/// as it was.
pub fn write_number(memory: &mut Memory, place: Place, width: Width, a: u32) -> Result<(), Fault>
    requires { IsActivation place.area }
    ensures { Writes (write_number width place (part width a) memory.old) result memory.old memory.new }
{
    match width {
        Width::Bit => memory.write_bit(place, a % 2 == 1),
        Width::Byte => memory.write_byte(place, low_byte(a)),
        Width::Word => memory.write_word(place, low_word(a)),
        Width::Dword => memory.write_dword(place, a),
    }
}
