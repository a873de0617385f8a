//! Numbers in binary-coded decimal, of three digits in a word and of seven in a double word.
//!
//! Uses `s7_base`. `specs/` defines what a pattern says and which pattern is written for a number, once for
//! every count of digits; `bcd_laws` proves that the two undo each other.
#![tactic(auto)]

pub use bcd_laws::{reads_back, writes_back, writes_no_other};
pub use decode::{bcd3_to_int, bcd7_to_dint};
pub use encode::{dint_to_bcd7, int_to_bcd3};

mod bcd_laws;
mod decode;
mod encode;
