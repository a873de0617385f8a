//! The calls of a source: which block is called, which data block is its instance, and what each formal is given; or
//! the first rule that a call breaks.
//!
//! Uses `stl_rules`, which has all of this as definitions, and `operand_scopes` for what names mean. `actuals` has
//! what a call gives by the names of formals, `given` what an operand gives to a formal, `rules` the rules that calls
//! break, and `call` a call that breaks none. A call costs its actuals.
#![tactic(auto)]

pub use call::{call_of, calling, rule_of_call};

mod actuals;
mod call;
mod given;
mod least;
mod rules;
