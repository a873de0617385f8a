//! Pointers as the address registers hold them: their parts, what is added to them, and the place that one
//! names.
//!
//! Uses `s7_base` and `memory_areas`: their `Pointers` defines the parts of a pointer and the results of
//! additions, their `Access` the codes of areas and the place that a pointer names.
#![tactic(auto)]

pub use place::resolve;
pub use pointer::Pointer;

mod place;
mod pointer;
