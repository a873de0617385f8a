//! Reads a source text: its raw program, or the first token or item that does not fit.
//!
//! Uses `stl_lexer` for the tokens of a text, `stl_instructions` (with `stl_constants` and `stl_places`) for
//! those of a statement and `stl_declarations` for those of declarations and initial values. `item` reads the
//! item at a place of the text: `heading` those of blocks, `symbol` those of the symbol table, `inside` those
//! among declarations, `values` those of the body of a data block. `misfit` says why an item is refused that
//! fits no form, and `blocks` makes the raw program of the items. `read_blocks` gives exactly the raw program of a text, or its refusal.
#![tactic(auto)]

pub use blocks::read_blocks;

mod blocks;
mod heading;
mod inside;
mod item;
mod misfit;
mod symbol;
mod values;
mod words;
