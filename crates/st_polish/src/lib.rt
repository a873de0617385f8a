//! A text as a reader wants it: loops with their tests, ELSIF, and symbols in the place of places.
//!
//! Uses `st_conditions` and `st_globals` for the two steps; of `condition_laws` when a text is no larger than another.
//! `specs/` says what a text keeps of the one before: its runs and its names.
#![tactic(auto)]

pub use polishing::polish;

mod polishing;
