//! The statements of the instructions on address registers: LAR1, LAR2, TAR1, TAR2, CAR, +AR1 and +AR2, and
//! the promise that they do what their instructions do.
//!
//! Uses `template_parts`. Each function appends the statements of one instruction to a list, as `specs/`
//! defines them. Where they take locals, the function gets the number of the first free one, and another
//! function has their types. What is promised of these statements is the contract of `pointers_serve`.
#![tactic(auto)]

ghost use Rattle.pointer_templates.specs.PointerLaw.{PointersServe};

pub use pointers::{
    push_pointer_exchange, push_pointer_load, push_pointer_move, push_pointer_store,
    types_of_pointer_exchange, types_of_pointer_load, types_of_pointer_store,
};

mod pointers;

/// The statements of each instruction on address registers do what the instruction does, and read no register but
/// those that it reads. They are at most eleven, with at most 91 nodes of expressions, are well typed, with
/// expressions at most 32 high, have no fault by division, and write each of their locals before they read it.
pub fn pointers_serve()
    ensures { PointersServe }
{}
