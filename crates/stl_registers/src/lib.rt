//! The registers of a controller as numbers of their width, what each instruction that works on registers
//! alone does to them, and numbers at places of a memory.
//!
//! Uses `stl_tree`, whose definitions say what the instructions do, `status_word`, `bcd_words`,
//! `address_registers` and `memory_areas`, and `s7_base`. Contracts see registers as the `RegisterValues` of
//! those definitions, through `values`.
#![tactic(auto)]

pub use places::{read_number, write_number};
pub use registers::Registers;

mod accumulators;
mod arithmetic;
mod conversions;
mod jumps;
mod places;
mod pointers;
mod registers;
mod shifts;
mod word_logic;
