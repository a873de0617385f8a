//! Digits in texts, and the numbers that they write.
//!
//! Uses `s7_base` alone. `specs/Digits.antt` says what a digit is, what a hexadecimal one means, and which
//! number digits write, kept in 32 bits or up to a bound; each call gives exactly that. `proofs/` has for
//! other crates that one or more digits are some digits and nothing else.
#![tactic(auto)]

pub use digit::{all_digits, are_digits, digits_size, hex_digit, hex_value, is_digit};
pub use number::{kept_number, number_up_to, number_value};

mod digit;
mod number;
