//! Cases for what no clause says of the tokens, trees, texts and runs of Structured Text, and what no command
//! of the program shows: that the definitions give what the language asks for, the exact texts, a run in
//! portions, and that a call answers while there is memory.
//!
//! A module has the cases of the library that its name begins with, over public calls alone.
#![tactic(auto)]

#[cfg(test)]
mod st_lexer_cases;
#[cfg(test)]
mod st_printer_cases;
#[cfg(test)]
mod st_runner_cases;
#[cfg(test)]
mod st_tree_cases;
#[cfg(test)]
mod wants;
