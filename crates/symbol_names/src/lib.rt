//! What the names of a source mean: its program, or the first rule of names, blocks and layouts that it
//! breaks.
//!
//! Uses `stl_rules`, which has all of this as definitions, `name_tables` for symbols and block numbers,
//! `block_variables` for the variables of blocks, `data_contents` for the bytes of data blocks, `operand_scopes` and
//! `call_operands` for operands and calls whose names are found, and `instruction_operands` for what a mnemonic makes
//! of them. `resolve` passes a text once, and keeps of the broken rules the first alone; `first_in_names` judges a
//! text of which no program is made.
#![tactic(auto)]

pub use resolution::{first_in_names, resolve};

mod blocks;
mod bodies;
mod data;
mod headings;
mod instances;
mod resolution;
