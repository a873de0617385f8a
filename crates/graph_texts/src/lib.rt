//! From a graph program to the tree of a text that means the same.
//!
//! Uses `st_tree`, of `graph_rules` what a plain graph program is, and `restructure`, which makes the statements of a
//! unit. A unit has the local `NEXT`, its last one, only where some of these choose by it.
#![tactic(auto)]

pub use text::text_of_graph;

mod text;
