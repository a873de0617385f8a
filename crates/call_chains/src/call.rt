//! A call of a unit by another.

use s7_base::Line;

/// A call: its line, and the position of the unit that is called.
#[derive(Clone, Copy, Debug, PartialEq, Eq)]
pub struct Call {
    pub line: Line,
    pub callee: u32,
}
