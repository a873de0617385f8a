//! What names of a Structured Text mean where they are used: tables of what is declared, scopes, and variables as they
//! are written.
//!
//! `specs/` has the definitions that the rules of a text (`st_rules`) are made of. Every call here gives what the
//! definition of its name says.
#![tactic(auto)]

pub mod lists;
pub mod scope;
pub mod table;
pub mod variable;
