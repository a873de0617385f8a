//! Tables of the names of a source: its symbols by their names, and its blocks by kind and number.
//!
//! The definitions of what names mean are in `stl_rules`. `Names` has the tables of a whole text; `first_places` has tables
//! from a name to the first place that has it, which are filled place by place, for any list of names.
#![tactic(auto)]

pub use first_places::{key_of, look_up, put_place};
pub use names::Names;
pub use numbers::Numbers;
pub use symbols::Symbols;

mod first_places;
mod names;
mod numbers;
mod symbols;
