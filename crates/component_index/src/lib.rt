//! Where the components of declarations lie, found by maps: an index that is made once, after which a path
//! costs its own length.
//!
//! Uses `stl_rules`, which says what a path names, `symbol_layout` for lengths and `name_tables` for the
//! keys of names.
#![tactic(auto)]

mod building;
mod index;
mod scope;
mod table;
mod walking;

pub use index::Components;
