//! Templates of calls: the statements of `CALL`, `UC` and `CC`, and those of the end word.
//!
//! A call needs of the block that it calls the number of its unit and its formals. The calling unit saves DBNO and DINO
//! before each call, and puts them back directly after it.
#![tactic(auto)]

ghost use Rattle.call_templates.specs.CallLaw.{CallsServe};

pub use around::push_end_word;
pub use calls::{push_call, push_call_if, push_types_of_call, types_of_call_if};

mod actuals;
mod around;
mod calls;

/// The statements of each call enter the unit as the program enters its block, or stop by the first fault of an actual;
/// behind it they do what the end of the block does. They read the registers alone that the call reads, and are at most
/// eleven with at most 91 nodes of expressions, and three of each for each actual.
pub fn calls_serve()
    ensures { CallsServe }
{}
