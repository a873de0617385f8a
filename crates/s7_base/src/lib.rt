//! What all crates of the translator share: lines and refusals, broken rules and which of them is named,
//! faults and outcomes, registers and sets of them, tokens, lists, and the parts of a word.
//!
//! Uses std alone. `specs/` has the definitions that several crates use: what a set of registers holds, what
//! the name of a reason is, and what the tokens of a source text are.
#![tactic(auto)]

pub use boxed::Boxed;
pub use break_laws::first_of_all_is_first;
pub use check::{Check, Entry};
pub use list::List;
pub use memory::NoMemory;
pub use outcome::{Fault, Outcome};
pub use reason::{Kind, Line, Reason, Rejection};
pub use register::{Reg, RegSet};
pub use rule_break::{Break, first_of_all, note, sooner};
pub use set_laws::same_registers_are_equal;
pub use small_text::SmallText;
pub use text::{begins_with, front_of, is_same_word, is_word_byte, rest_after};
pub use token::{Token, TokenKind};
pub use word::{Width, high_word, low_byte, low_word, put_low_byte, put_low_word};

mod boxed;
mod break_laws;
mod check;
mod list;
mod memory;
mod outcome;
mod reason;
mod register;
mod rule_break;
mod set_laws;
mod small_text;
mod text;
mod token;
mod word;
