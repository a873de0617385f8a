//! What a Structured Text declares: what its names mean, its globals and data blocks in the tree, and the
//! rules that are broken there.
//!
//! Uses `st_rules`, whose definitions say what each call gives, and knows no statements.
#![tactic(auto)]

pub use declaration::{all_inside, all_outside, formals_of, locals_of};
pub use global::{Globals, all_globals};

mod declaration;
mod global;
