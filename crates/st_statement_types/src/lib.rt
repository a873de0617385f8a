//! The statements of a Structured Text: their expressions, variables and calls in the tree, and the rules
//! that are broken in them.
//!
//! Uses `st_rules`, whose definitions say what each call gives, and knows no declarations but by the scope
//! that it is given.
#![tactic(auto)]

pub use invocation::callee;
pub use statement::statements;

mod expression;
mod invocation;
mod statement;
