//! The status word: its bits, and what the instructions make of them.
//!
//! Uses `s7_base`. `specs/` has the effects on truth values, one for each bit. The word is packed, and each
//! call has its effect on what the bits say.
#![tactic(auto)]

pub use laws::{loaded_is_stored, put_is_got, stored_is_loaded};
pub use status::Status;
pub use test::{Flag, Test};

mod laws;
mod status;
mod test;
