//! Judges a source text: its program, or the line and the reason of the first broken rule.
//!
//! Uses `stl_reader` for the raw program of a text, and `symbol_names` for the program of a raw program or
//! the first rule of names, blocks and layouts that it breaks. `bodies` has the rules of bodies, which are
//! judged before the raw program is given up: those of `brackets`, those of `labels`, and how many instructions
//! and formals there may be. `chain` has those of the calls of the program, by `call_chains`. `judge` names the first
//! of what is broken.
#![tactic(auto)]

pub use judge::verdict;

mod bodies;
mod brackets;
mod chain;
mod judge;
mod labels;
