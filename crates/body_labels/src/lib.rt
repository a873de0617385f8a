//! The labels of a body: where the first instruction with a label is, and how many `JU` a jump list has.
//!
//! `stl_rules` has both as definitions. `Labels` keeps the first position of each label in a table, which is
//! made once for a body; `name_tables` has such tables.
#![tactic(auto)]

pub use labels::Labels;
pub use lists::{MOST_LISTED, list_count, listed_in};

mod labels;
mod lists;
