//! Cuts a source text into its tokens.
//!
//! Uses `s7_base`, which has the definition of tokens. `tokens` gives exactly the tokens of a text, or the
//! line of the first place where none begins. `specs/` defines the cut a second time, form by form, and
//! `tokens_are_cut` is the law that both agree on every text.
#![tactic(auto)]

pub use laws::tokens_are_cut;
pub use lexer::tokens;

mod laws;
mod lexer;
mod piece;
