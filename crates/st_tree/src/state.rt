//! Values, and what a formal means, as a run of a text has them.

use crate::expr::StType;
use memory_areas::Place;
use s7_base::Reg;

/// A value: its type and its number. That of a bit type is its pattern, read without a sign; FALSE is 0
/// and TRUE is 1.
#[derive(Clone, Copy, Debug, PartialEq, Eq)]
pub struct Value {
    pub ty: StType,
    pub n: i64,
}

/// What a variable means while a unit runs, and what a formal is given.
#[derive(Clone, Copy, Debug, PartialEq, Eq)]
pub enum Reference {
    Register(Reg),

    /// The local at this position of the activation of this number. The first activation is number 0.
    Local(u8, u32),

    /// A place in memory that holds a value of this type.
    Place(Place, StType),
}
