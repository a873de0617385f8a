//! The place that a pointer names.
ghost use Rattle.std.specs.Prelude.{◌≡◌};
ghost use Rattle.memory_areas.specs.Access.{place_aimed, aim_of_pointer};

use crate::pointer::Pointer;
use memory_areas::{AreaName, Place};
use s7_base::Fault;

/// The place that a pointer names. `db` and `di` are the numbers in the DB and the DI register, and `depth`
/// is that of the running activation. Whether the place exists is not tested.
pub fn resolve(p: Pointer, db: u16, di: u16, depth: u8) -> Result<Place, Fault>
    ensures { result ≡ place_aimed (aim_of_pointer p.0 db di depth) }
{
    match AreaName::of_code(p.area()) {
        Some(name) => Ok(Place {
            area: name.area(db, di, depth),
            byte: p.byte(),
            bit: p.bit(),
        }),
        None => Err(Fault::AreaCode),
    }
}
