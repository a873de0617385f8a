//! The variables of a block, found by maps: what it shares with its caller, what it keeps in an instance, and its
//! temporaries. They are indexed once, and those of a function block serve each of its instances.
//!
//! Uses `stl_rules`, which says what a path from a variable means, `symbol_layout` for the rules of declarations,
//! `component_index` for the components of sections and `name_tables` for the keys of names. `formals` has the
//! formals of a block by their names, `rules` what the variables break, `variables` the operand that a path names in
//! a block, and in an instance; `first` keeps of broken rules the first.
#![tactic(auto)]

pub use first::{join, note, note_if};
pub use formals::Formals;
pub use variables::BlockVariables;

mod first;
mod formals;
mod rules;
mod variables;
