//! The statements of shifts and rotations, and the promise that they do what their instructions do.
//!
//! Uses `template_parts`. `push_shift` has those by a constant or by ACCU2, `push_rlda` and `push_rrda` those
//! through CC1. What is promised of their statements is the contract of `shifts_serve`.
#![tactic(auto)]

ghost use Rattle.shift_templates.specs.ShiftLaw.{ShiftsServe};

pub use templates::{push_rlda, push_rrda, push_shift, types_of_shift, types_through_cc1};

mod parts;
mod templates;

/// The statements of each shift and rotation do what the instruction does, and read no register but those that it
/// reads. They are at most eleven, with at most 91 nodes of expressions, are well typed, with expressions at most 32
/// high, have no fault by division, and write each of their locals before they read it.
pub fn shifts_serve()
    ensures { ShiftsServe }
{}
