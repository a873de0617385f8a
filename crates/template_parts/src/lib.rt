//! What the statements of instructions are made of, and what is known of their parts.
//!
//! Uses `stl_tree` and `st_tree`. The code makes expressions and assignments. The definitions say how the
//! states of both runs are related (`Related`), what statements that do an instruction are (`DoesInstruction`), and
//! what the statements of an instruction owe in all (`Serves`); the crates that write them have a law each
//! that they serve. The proofs, which those crates use, give the values of expressions, and what the
//! statements before an instruction do that lead to its operand (`Reaching`) or fetch it (`Fetching`);
//! `Example` shows how two instructions are to be proved.
#![tactic(auto)]

pub use builders::{
    and, binary, constant, convert, literal, local, not, or, push_clear_or, read, select,
    set_local, set_register, shift, unary, with_low, xor,
};
pub use fetch::{
    fetched_value, may_fault, push_fetch, push_reach, reading, types_fetched, types_reached,
    writing,
};
pub use pointing::{crossing, in_area, register_of, sum};

mod builders;
mod fetch;
mod pointing;
