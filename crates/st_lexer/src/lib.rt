//! The tokens of a Structured Text.
//!
//! Uses `s7_base`, `memory_areas` and `st_tree`, and its proofs `digit_texts`. `specs/` defines the tokens of
//! a text, the value of a literal and the place of a direct variable; `token_laws` says the same of tokens as
//! a relation, `token_facts` what the tokens of a text are by their sorts, and `spelling_laws` that what a
//! canonical text writes for a word, a literal or a place is one token of it.
#![tactic(auto)]

pub use direct::{Direct, direct_at};
pub use lexer::{Lexeme, end_line, lexemes, st_tokens};
pub use literal::{Literal, is_in_range, literal_at, literal_to, type_named};
pub use number::{Base, Number, base_at, begins_with_digit};
pub use s7_base::{front_of, is_same_word, rest_after};
pub use spelling_laws::{literals_are_tokens, places_are_tokens, words_are_tokens};
pub use st_tree::{StKind, StToken, StType};
pub use token_facts::tokens_are_of_their_sorts;
pub use token_laws::tokens_are_cut;

mod direct;
mod lexer;
mod literal;
mod number;
mod spelling_laws;
mod text;
mod token_facts;
mod token_laws;
