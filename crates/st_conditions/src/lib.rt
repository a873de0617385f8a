//! Conditions in their place: a loop that first leaves by EXIT has its test at its head, and an ELSE that is one IF
//! becomes ELSIF.
//!
//! Uses `st_tree`, which says what trees mean and which ones a text can have, and `condition_laws`, which defines what
//! is made of each statement and has its laws.
#![tactic(auto)]

pub use program::with_conditions;

mod choices;
mod loops;
mod negation;
mod program;
mod statement;
