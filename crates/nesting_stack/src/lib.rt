//! The stack of open brackets: what each keeps until it is closed.
//!
//! Uses `s7_base`. Contracts see it as a list, the last bracket first, and it takes no memory.
#![tactic(auto)]

pub use nesting::{Full, Nesting};

mod nesting;
