//! Places as the keys of tables.
ghost use Rattle.std.specs.Prelude.{◌≡◌};
ghost use Rattle.st_globals.specs.Globals.{located};
ghost use Rattle.std.specs.Map.{lookup};
ghost use Rattle.st_globals.specs.inner.Tables.{area_code, is_same_key, key_at, place_key, width_code};

use indexmap::IndexMap;
use memory_areas::{Area, AreaName};
use s7_base::Width;
use stl_tree::Symbol;

/// A place and its width, as a key that can be hashed: the code of the area, the byte, the bit, and the code of the
/// width.
pub type PlaceKey = (u8, u32, u8, u8);

fn width_code(width: Width) -> u8
    ensures { result ≡ width_code width }
{
    match width {
        Width::Bit => 0,
        Width::Byte => 1,
        Width::Word => 2,
        Width::Dword => 3,
    }
}

/// The code of an area in pointers, and 0 of an area that no symbol is in.
fn area_code(area: Area) -> u8
    ensures { result ≡ area_code area }
{
    match area {
        Area::I => 0x81,
        Area::Q => 0x82,
        Area::M => 0x83,
        _ => 0,
    }
}

/// The key of a place that is named directly.
pub fn key_at(area: AreaName, byte: u32, bit: u8, width: Width) -> PlaceKey
    ensures { result ≡ key_at area byte bit width }
{
    (area.code(), byte, bit, width_code(width))
}

/// The key of a symbol's place.
pub fn key_of_symbol(symbol: &Symbol) -> PlaceKey
    ensures { result ≡ place_key (located symbol.now) }
{
    let place = symbol.place;
    (
        area_code(place.area),
        place.byte,
        place.bit,
        width_code(symbol.width),
    )
}

/// The number that a place has.
pub fn look_up(numbers: &IndexMap<PlaceKey, u32>, key: PlaceKey) -> Option<u32>
    ensures { result ≡ lookup (is_same_key key) numbers.now.entries }
{
    numbers.get(&key).copied()
}
