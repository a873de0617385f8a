//! What an STL source text is: from its tokens to its items, and from these to a raw program.
//!
//! Uses `stl_tree`, which has raw programs, and `stl_statement_grammar`, which has the forms of one statement.
//! `specs/` has the items of a text and the raw program that they make. Items are defined there twice, as
//! functions and form by form; `source_laws` promises that both say the same.
#![tactic(auto)]

pub use declaration::{Innermost, Level, OpenStruct, Section, Written};
pub use item::{Item, NextItem, Reading, Where};

mod declaration;
mod item;
