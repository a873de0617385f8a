//! The memory of a controller: its areas, the places in them, and the access to a place.
//!
//! Uses `s7_base`. `specs/` defines how a memory is seen, the tests of an access and their order, and how a
//! run shows the memory at its end; both languages use these. The sizes of the areas and the limits of data
//! blocks are defined here once.
#![tactic(auto)]

pub use call::{BlockName, Call};
pub use data_block::{DataBlock, are_blocks};
pub use memory::Memory;
pub use outside::fits_width;
pub use place::{Area, AreaName, Place, is_byte_in};
pub use sizes::{
    ACTIVATIONS, INPUT_BYTES, LEAST_BLOCK_BYTES, LOCAL_BYTES, MARKER_BYTES, MOST_BLOCK_BYTES,
    MOST_BLOCKS, OUTPUT_BYTES,
};

pub mod area_laws;
mod call;
mod data_block;
mod memory;
mod outside;
mod parts;
mod place;
mod sizes;
