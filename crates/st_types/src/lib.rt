//! Names, types, places and the chain of calls of a Structured Text: the raw tree of a text becomes its tree,
//! or the first rule that is broken is named.
//!
//! Uses `st_rules`, which defines all of this, `st_scopes` and `st_statement_types` for the parts of a text,
//! and `call_chains`.
#![tactic(auto)]

pub use text::typed;

mod call;
mod depth;
mod text;
mod unit;
