//! The syntax of a Structured Text: what its tokens mean, its forms and what they spell, how deep they nest,
//! and its raw tree or its first token that cannot follow or nests too deep.
//!
//! Uses `s7_base`, `memory_areas`, `st_tree` and `st_lexer`. It has definitions and types, and no function.
//! `st_token_kinds`, `st_statement_parser` and `st_syntax` read a text by them, and `st_reading_laws` has what follows from
//! them; `specs/inner` is the pass over tokens that code and laws use.
#![tactic(auto)]

pub use heading::Heading;
pub use kind::{Fixed, Function, GrammarKind, Jump, Lead, Literal, OneOperand, Prefix, Word};
pub use measured::Measured;
pub use words::{SIGNS, WORDS};

mod heading;
mod kind;
mod measured;
mod words;
