//! Reads what names a place or a block: paths of names, places of memory, pointer constants, operands that are
//! found by a pointer, and the names of blocks.
//!
//! Uses `stl_constants` for words, `digit_texts` for numbers, and `stl_statement_grammar`, which has the forms of
//! places as definitions. Each call gives what its definition gives for the same tokens, also where nothing
//! fits; those that keep a name may run out of memory. `proofs/` has for other crates that paths, places and
//! pointers are read exactly where one of their forms is written, and with what these begin.
#![tactic(auto)]

pub use block_name::{has_number, kind_word, name_at};
pub use path::{name_of, named_at, number_word, path_at, whole_at};
pub use place::{Numbered, further, is_in_area, numbered_at, place_at};
pub use pointer::{
    crossing_at, indirect_at, memory_at, offset_at, offset_value, pointer_at, pointer_value,
};

mod block_name;
mod path;
mod place;
mod pointer;
