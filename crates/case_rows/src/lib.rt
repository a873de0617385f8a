//! Worked cases, as the lines of a file say them: what the program is asked, and what it is to answer.
//!
//! Uses `s7_base` alone, so it is proved in parallel with what the program is made of; `worked_rows` runs the
//! cases. As the crates of tests it promises nothing: a case that is read wrong fails, or its file has too
//! few.
#![tactic(auto)]

pub use cases::{AskedWord, Case, Cases, Faults, Question, has_key};
pub use stop::Stop;

mod cases;
mod stop;
mod texts;
