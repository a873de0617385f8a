//! The call of a block from outside, with which a run of either language begins.

use crate::place::Place;
use s7_base::{List, Width};

/// A block by its kind and number: an organization block, a function or a function block.
#[derive(Clone, Copy, Debug, PartialEq, Eq)]
pub enum BlockName {
    Ob(u16),
    Fc(u16),
    Fb(u16),
}

/// A call of a block from outside: its name, the data block of its instance, which only a function
/// block has, and its actual parameters in the order of the formals.
#[derive(Debug, Drop, PartialEq)]
pub struct Call {
    pub block: BlockName,
    pub instance: u16,
    pub actuals: List<(Place, Width)>,
}
