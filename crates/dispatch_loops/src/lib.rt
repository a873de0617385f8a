//! A segment that is not well nested, as a loop over the selector; and the statements of which texts of segments are
//! made.
#![tactic(auto)]

pub use dispatch::{Turns, push_turns};
pub use statements::{choice, endless, one_statement, push_all, settings};

mod dispatch;
mod statements;
