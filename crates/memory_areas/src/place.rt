//! Places in the memory of a controller.
ghost use Rattle.std.specs.Prelude.{◌≡◌, ◌<◌};
ghost use Rattle.memory_areas.specs.Access.{area_named, code_of, is_byte_in, name_of_code};
ghost use Rattle.memory_areas.specs.Memory.{IsActivation};
ghost use Rattle.memory_areas.specs.declared.sizes.TheConstants.{ACTIVATIONS};

use crate::parts::bytes_wide;
use crate::sizes::{INPUT_BYTES, LOCAL_BYTES, MARKER_BYTES, OUTPUT_BYTES};
use s7_base::Width;

/// An area of memory as a place names it. `Local` and `Cell` are the local data and the constant
/// actuals of an activation, numbered from 0 to 7; `Db` has the number of a data block, and is 0 where
/// no block is open.
#[derive(Clone, Copy, Debug, PartialEq, Eq)]
pub enum Area {
    I,
    Q,
    M,
    Local(u8),
    Cell(u8),
    Db(u16),
}

/// An area as an operand names it. `Db` and `Di` are the blocks that the DB and the DI register name.
#[derive(Clone, Copy, Debug, PartialEq, Eq)]
pub enum AreaName {
    I,
    Q,
    M,
    L,
    Db,
    Di,
}

impl AreaName {
    /// The area that the name means. `db` and `di` are the numbers in the DB and the DI register, and
    /// `activation` is that of the running activation.
    #[inline(always)]
    pub fn area(self, db: u16, di: u16, activation: u8) -> Area
        ensures area { result ≡ area_named self db di activation }
        ensures activation { activation < ACTIVATIONS → IsActivation result }
    {
        match self {
            AreaName::I => Area::I,
            AreaName::Q => Area::Q,
            AreaName::M => Area::M,
            AreaName::L => Area::Local(activation),
            AreaName::Db => Area::Db(db),
            AreaName::Di => Area::Db(di),
        }
    }

    /// The code of the area in a pointer.
    pub fn code(self) -> u8
        ensures { result ≡ code_of self }
    {
        match self {
            AreaName::I => 0x81,
            AreaName::Q => 0x82,
            AreaName::M => 0x83,
            AreaName::Db => 0x84,
            AreaName::Di => 0x85,
            AreaName::L => 0x86,
        }
    }

    /// The area that has a code in pointers; `None` for a code that no area has.
    pub fn of_code(code: u8) -> Option<AreaName>
        ensures { result ≡ name_of_code code }
    {
        match code {
            0x81 => Some(AreaName::I),
            0x82 => Some(AreaName::Q),
            0x83 => Some(AreaName::M),
            0x84 => Some(AreaName::Db),
            0x85 => Some(AreaName::Di),
            0x86 => Some(AreaName::L),
            _ => None,
        }
    }
}

/// Whether the bytes that an operand names lie in its area. The length of a data block is judged at run
/// time.
pub fn is_byte_in(area: AreaName, width: Width, byte: u32) -> bool
    ensures { result ≡ is_byte_in area width byte }
{
    let end = byte as usize + bytes_wide(width);
    match area {
        AreaName::I => end <= INPUT_BYTES,
        AreaName::Q => end <= OUTPUT_BYTES,
        AreaName::M => end <= MARKER_BYTES,
        AreaName::L => end <= LOCAL_BYTES,
        AreaName::Db | AreaName::Di => byte <= 65535,
    }
}

/// A place in memory: an area, a byte from 0 and a bit from 0 to 7, which is 0 for a byte or more.
#[derive(Clone, Copy, Debug, PartialEq, Eq)]
pub struct Place {
    pub area: Area,
    pub byte: u32,
    pub bit: u8,
}
