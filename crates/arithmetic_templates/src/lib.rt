//! The templates of arithmetic and comparisons of whole numbers: the statements that each instruction
//! becomes.
//!
//! Uses `template_parts`. What an instruction does is a definition of `stl_tree` (`after_arithmetic`,
//! `after_negation`, `after_comparison`). The code appends the statements of an instruction and gives the
//! types of their locals. The crate promises that the statements do what the instruction does, and what else
//! is asked of a template (`arithmetic_serves`).
#![tactic(auto)]

ghost use Rattle.arithmetic_templates.specs.ArithmeticLaw.{ArithmeticServes};

pub use calculations::{push_calculated, push_negated, types_of_calculated, types_of_negated};
pub use comparisons::{push_compared, types_of_compared};

mod calculations;
mod comparisons;
mod numbers;

/// The statements of each arithmetic instruction, negation and comparison do what it does. They read the
/// registers alone that it reads, are at most eleven with at most 91 nodes of expressions, and are well
/// typed, low and without a fault by division; their locals are written before they are read.
pub fn arithmetic_serves()
    ensures { ArithmeticServes }
{}
