//! Tests words and signs, and reads numbers, constants and the signs of lists: the least parts of a statement.
//!
//! Uses `stl_statement_grammar`, which has them as definitions, and `digit_texts` for digits and decimal numbers.
//! Each call gives what its definition gives for the same tokens, also where nothing fits or a form is not
//! supported. `proofs/` has for other crates that a constant is read exactly where one of its forms is
//! written, and how a loop over the elements of a list follows what they are read as.
#![tactic(auto)]

pub use constant::{
    addend_at, begins_glued, constant_at, fitting, left_out_constant_at, number_at,
};
pub use lists::{Next, begins_with_sign, begins_with_word, further, next_of, one_more};
pub use number::is_numbered;
pub use truth::truth_at;
pub use words::{
    is_joined, is_joined_word, is_quoted, is_sign, is_spelled, is_word, is_word_kind,
    is_word_or_sign,
};

mod constant;
mod lists;
mod number;
mod truth;
mod words;
