//! What the tokens of one statement of an STL source say: words, numbers, constants, mnemonics and operands.
//!
//! Uses `stl_tree`, which has raw instructions, and `digit_texts` for digits and decimal numbers. `specs/`
//! has each form twice, as functions and form by form; `stl_instructions`, which reads them, promises that
//! both say the same. The types of their values are here, and which constants fit a width.
#![tactic(auto)]

pub use mnemonic::{Mnemonic, OperandForm, Prefix, Read};
pub use number::Bits;

mod mnemonic;
mod number;
