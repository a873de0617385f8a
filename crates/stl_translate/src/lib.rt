//! From an STL program to the tree of an ST text that means the same.
#![tactic(auto)]

pub use translation::translate;

mod translation;
