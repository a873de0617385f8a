//! Reads the syntax of a Structured Text: its raw tree, in which names are texts, or the line of its first
//! token that cannot follow or nests too deep.
//!
//! Uses `st_token_kinds` for what a token means, `st_statement_parser` for what is inside units, and `st_grammar`, whose pass
//! over tokens it follows. That what the pass judges is the raw tree or the refusal of the text is a law of
//! `st_reading_laws`; `st_parser` puts both together.
#![tactic(auto)]

pub use parser::syntax;

mod global_tail;
mod parser;
mod state;
mod unit;
