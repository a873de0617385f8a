//! The actuals of a call from outside.
ghost use Rattle.std.specs.Prelude.{◌≡◌, List, None};
ghost use Rattle.memory_areas.specs.Access.{aim_of_place, fault_of};
ghost use Rattle.memory_areas.specs.Areas.{IsMemoryOf};
ghost use Rattle.memory_areas.specs.Memory.{Decides};
ghost use Rattle.memory_areas.specs.OutsideActuals.{FitsWidth, IsOutsidePlace};
ghost use Rattle.memory_areas.specs.declared.data_block.DataBlock.{DataBlock};

use crate::memory::Memory;
use crate::place::{Area, Place};
use s7_base::Width;

/// Whether a call from outside may give places of an area.
fn is_outside(area: Area) -> bool
    ensures { Decides result (IsOutsidePlace area) }
{
    match area {
        Area::I => true,
        Area::Q => true,
        Area::M => true,
        Area::Db(_) => true,
        Area::Local(_) => false,
        Area::Cell(_) => false,
    }
}

/// Whether a place of an area that calls may give exists in a memory.
fn is_there(memory: &Memory, place: Place, width: Width) -> bool
    requires { IsOutsidePlace place.area }
    ensures { Decides result (fault_of (aim_of_place place) width memory.now ≡ None) }
{
    memory.find(place, width).is_ok()
}

/// Whether an actual, a place with its width, fits a formal of a width.
pub fn fits_width(memory: &Memory, wanted: Width, place: Place, width: Width) -> bool
    ensures { (blocks : List DataBlock) → IsMemoryOf blocks memory.now.areas
        → Decides result (FitsWidth blocks wanted (place, width)) }
{
    if width != wanted {
        return false;
    }
    if !is_outside(place.area) {
        return false;
    }
    is_there(memory, place, width)
}
