//! Reads Structured Text: its syntax by `st_syntax`, and by `st_types` its names, types, places and calls.
//!
//! `st_syntax` gives what the pass over a text's tokens judges, `st_reading_laws` that this is the raw tree
//! or the refusal of the text. Here they are put together.
//!
//! By `st_text_laws` and `st_text_laws` exactly the trees that some text reads as are proper. They are laws here,
//! beside those that a text has one reading.
#![tactic(auto)]

pub use text::{parse, syntax};

mod text;
pub mod text_laws;
