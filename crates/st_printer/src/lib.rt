//! The canonical text of a tree.
//!
//! Uses `s7_base`, `digit_texts`, `memory_areas` and `st_tree`, whose `Spelling` says what the text is;
//! `itoa` prints the numbers. Each part of a text is appended to the text before it, so a text is made in one
//! pass.
#![tactic(auto)]

pub use unit::print;

mod expression;
mod global;
mod literal;
mod names;
mod statement;
mod text;
mod unit;
mod variable;
