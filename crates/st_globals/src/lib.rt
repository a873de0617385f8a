//! Symbols in a text: where its statements name a place of a symbol directly, they name a global instead.
//!
//! Uses `s7_base`, `memory_areas`, `stl_tree` for the symbols, and `st_tree`. `specs/` defines which symbols become
//! globals, and statements with other variables; `kept_laws` has what such statements keep.
#![tactic(auto)]

pub use naming::name_places;

mod globals;
pub mod kept_laws;
mod keys;
mod names;
mod naming;
mod renaming;
mod variables;
