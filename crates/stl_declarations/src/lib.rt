//! Reads declarations and initial values, and adds declarations to the raw program of what is read.
//!
//! Uses `stl_grammar`, which says what they are, and `digit_texts`, `stl_constants` and `stl_places` for
//! words, numbers, constants, pointers and paths. `declaration` reads a declaration after its name, and knows
//! which levels of STRUCT are open; `section` knows which section a word opens, and what may be in it;
//! `initial` reads initial values, of a declaration and by a path in the body of a data block; `declared`
//! says what a declaration and the end of a STRUCT make of what was read before. Each call gives what the
//! definition of its name gives, and refuses where that refuses. The place of an item, and why one is refused
//! that fits no form, are not known here.
#![tactic(auto)]

pub use declaration::{
    declaration_at, elementary_type, ends_level, is_user_type, left_of, open_level, type_kind,
};
pub use declared::{put_closed, put_type};
pub use initial::{ending_at, path_value_at};
pub use section::section_at;
pub use words::is_listed;

mod declaration;
mod declared;
mod initial;
mod section;
mod words;
