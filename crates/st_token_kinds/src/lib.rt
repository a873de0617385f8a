//! What a token of a Structured Text means in its grammar.
//!
//! Uses `st_grammar`, which has the kinds of tokens and says what each token is.
#![tactic(auto)]

pub use token::kind_of;
pub use words::{sign_named, word_named};

mod token;
mod words;
