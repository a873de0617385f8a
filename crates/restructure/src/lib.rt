//! The nodes of a unit as statements: IF, CASE, WHILE TRUE, EXIT, CONTINUE and RETURN.
//!
//! The unit is cut into segments, which stand one after another. One that is well nested is written by its plan, and
//! needs no variable; any other one is a loop over a selector, whose turns do one node each. Blocks that no path from the
//! first one reaches are not written. Everything takes time in proportion to the unit: each block is looked at once.
#![tactic(auto)]

pub use structured::{Structured, restructure};

mod structured;
