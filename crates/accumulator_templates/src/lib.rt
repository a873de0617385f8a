//! The statements of the instructions that load, store and move, open data blocks, add constants, combine
//! bits and convert.
//!
//! Uses `template_parts`. Each function appends the statements of one instruction to a list, as `specs/`
//! defines them. Where they take locals, the function gets the number of the first free one, and another
//! function has their types. The crate promises of each instruction that its statements do what it does, read
//! only what it reads, are few and small, and are those of a plain graph: well typed, low and without a fault
//! by division.
#![tactic(auto)]

ghost use Rattle.accumulator_templates.specs.AccumulatorLaw.{AccumulatorServes};

pub use conversions::{push_cad, push_caw, push_invd, push_invi, push_itd};
pub use data_blocks::{
    push_block_exchange, push_block_open, push_number_load, types_of_block_exchange,
    types_of_block_open,
};
pub use logic::{push_logic, types_of_logic};
pub use moves::{
    push_exchange, push_load, push_pop, push_push, push_status_load, push_status_store,
    push_transfer, types_of_exchange, types_of_load,
};
pub use sums::{push_add_dword, push_add_word, push_dec, push_inc};

mod conversions;
mod data_blocks;
mod logic;
mod moves;
mod parts;
mod sums;

/// The statements of each of these instructions do what the instruction does. They read the registers alone that it
/// reads, are at most eleven with at most 91 nodes of expressions, and are well typed, low and without a fault by
/// division; their locals are written before they are read.
pub fn accumulators_serve()
    ensures { AccumulatorServes }
{}
