//! The head of a unit while it is read.

use s7_base::{Line, List};

/// The head of a unit: whether it is a program, its name, and the line of its first word.
#[derive(Drop)]
pub struct Heading {
    pub program: bool,
    pub name: List<u8>,
    pub line: Line,
}
