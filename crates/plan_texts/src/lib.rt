//! A segment that has a plan, as IF, CASE, WHILE TRUE, EXIT, CONTINUE and RETURN.
#![tactic(auto)]

pub use parts::push_planned;

mod exits;
mod leads;
mod lists;
mod nodes;
mod parts;
