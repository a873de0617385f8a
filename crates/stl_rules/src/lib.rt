//! What a raw STL program means, or which rule it breaks.
//!
//! `specs/` has the program that a raw program (`stl_grammar`) means, the rules of raw programs stage by stage, and the
//! verdict on a text, which is a program or the first broken rule and its line. That it accepts exactly the texts of
//! the grammar is a law of `source_laws`, that it gives only programs that keep the rules of programs one of
//! `verdict_laws`.
#![tactic(auto)]

pub use layout::{Component, Extent, Layout};
pub use resolved_operand::ResolvedOperand;

mod layout;
mod resolved_operand;
