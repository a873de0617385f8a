//! The operand of an instruction, where all names in it are found, and the instruction of a mnemonic and an
//! operand.
//!
//! Uses `stl_rules`, which has all of this as definitions. `place` makes an operand of a written place, of
//! the address of a symbol and of a component, `pointer` of what a pointer names, or says that it lies
//! outside its area or range; `instruction` has the instruction of each mnemonic and operand, or the rule
//! that is broken; `least_rule_is_named` promises that of several rules this is the one with the least
//! number. No call takes memory.
#![tactic(auto)]

pub use instruction::op_or_rule;
pub use laws::least_rule_is_named;
pub use number::may_have;
pub use place::{given_component, given_place, given_symbol};
pub use pointer::{
    given_by_memory, given_by_register, given_crossing, given_db_by, given_di_by, given_pointer,
};

mod instruction;
mod laws;
mod number;
mod place;
mod pointer;
