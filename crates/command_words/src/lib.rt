//! What the arguments of the program mean: its command, and which of them names the image.
//!
//! Uses `memory_areas` for the call that a run begins with, and `digit_texts` for decimal numbers.
//! `specs/Command.antt` says what arguments mean, `specs/CallWord.antt` what the argument CALL means; both
//! calls give exactly that, or run out of memory.
#![tactic(auto)]

pub use command::{Command, WordsRefusal, image_name, read_words};

mod call;
mod command;
