//! The rules of names, types, places, sizes and calls of a Structured Text: all definitions of what a raw tree means
//! and which rules it breaks, up to `HasTree` and `IsRefused`, and the types that they speak of.
//!
//! What a name means is defined in `st_names`, which calls of units reach each other in `call_chains`.
#![tactic(auto)]

pub mod declaration;
pub mod expression;
