//! The templates of jumps: the statements of conditional jumps, `LOOP`, `JL` and `BEC`.
//!
//! Uses `bit_templates` and `accumulator_templates`. Where a node goes on is its exit. What that tests is a temporary,
//! which these statements set before they change what it was taken from.
#![tactic(auto)]

ghost use Rattle.jump_templates.specs.JumpLaw.{JumpsServe};

pub use jumps::{
    push_end_if, push_jump, push_list, push_loop, types_of_jump, types_of_list, types_of_test,
};

mod jumps;

/// The statements of each jump lead to the state after it, and their first local has what the exit tests. They read the
/// registers alone that the jump reads, are at most eleven with at most 91 nodes of expressions, and are well typed and
/// low; no division in them has a fault, and their locals are written before they are read.
pub fn jumps_serve()
    ensures { JumpsServe }
{}
