//! From an STL program to graphs of ST statements that mean the same, an instruction at a time.
//!
//! Uses `stl_tree` and `st_tree`, and the crates of templates, which write the statements of an instruction
//! and say what they do. Here are the nodes of a unit, the one dispatch over instructions, and the proof that
//! the graphs run as the program does (`Simulation`). A graph is not yet a text.
#![tactic(auto)]

pub use units::lower;

mod data_blocks;
mod locals;
mod statements;
mod unit_names;
mod unit_order;
mod units;
