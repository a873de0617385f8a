//! The mnemonics of STL: the table of them as data, with which one tokens begin, and what the one of a name
//! is.
//!
//! Uses `stl_constants` for tests of words and signs, and `stl_statement_grammar`, which has the table as its
//! definition. The code keeps the table by the first byte of a line, so that a look-up walks few lines; each
//! part is proved to be that of the defined table. `mnemonics_are_longest` is the law that of two mnemonics
//! that begin a statement the longer one is found.
#![tactic(auto)]

pub use laws::mnemonics_are_longest;
pub use table::{Row, goes_on, mnemonic_at, mnemonic_named};

mod laws;
mod rows;
mod table;
