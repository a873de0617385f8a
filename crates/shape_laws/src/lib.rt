//! Laws of shapes: the text that restructuring makes of the nodes of a unit has the shape that its blocks allow.
//!
//! Uses `text_shapes`, which says what a shape is, and `unit_regions`, which has the texts. It computes nothing.
#![tactic(auto)]

ghost use Rattle.shape_laws.specs.EachOnce.{MadeHasEachOnce};
ghost use Rattle.shape_laws.specs.Lengths.{MadeIsShort};
ghost use Rattle.shape_laws.specs.MadeShape.{MadeHasShape, WorkedUnitIsMade};

/// The text that is made of the nodes of a unit has their shape.
pub fn made_has_shape()
    ensures { MadeHasShape }
{}

/// It has few statements besides those of its blocks.
pub fn made_is_short()
    ensures { MadeIsShort }
{}

/// It has what its blocks do exactly once, and nothing of a block that no path reaches.
pub fn made_has_each_once()
    ensures { MadeHasEachOnce }
{}

/// The law speaks of some unit with a dispatch loop.
pub fn worked_unit_is_made()
    ensures { WorkedUnitIsMade }
{}
