//! What the program answers: the call `stl2st`, with the promises of the program as its clauses.
//!
//! `answer` has the call; the program makes it once, and nothing else that it does has a promise. `reply`
//! makes the answer of a command, which `command_words` reads from the arguments, and `demo` that of a source
//! of its own, which `s7_demo` writes. `stl_checks` judges a
//! source text, `stl_translate` turns its program into a tree, which `st_printer` writes. `st_parser` and
//! `st_runner` read and run Structured Text, `stl_machine` runs STL, and `image_text` has the images and
//! reports of runs.
#![tactic(auto)]

pub use answer::stl2st;
pub use limits::{IMAGE_LIMIT, INPUT_LIMIT};
pub use reply::USAGE_LINE;
pub use status::Status;

mod answer;
mod demo;
mod limits;
mod reply;
mod status;
mod text;
