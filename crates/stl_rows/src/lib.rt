//! Cases for what no clause says of the status word, of tokens, instructions and the machine, and no command
//! of the program shows: that the definitions give the answers that the rules of STL ask for, over public
//! calls alone.
#![tactic(auto)]

#[cfg(test)]
mod pointer_cases;
#[cfg(test)]
mod status_word_cases;
#[cfg(test)]
mod stl_instructions_cases;
#[cfg(test)]
mod stl_lexer_cases;
#[cfg(test)]
mod stl_machine_cases;
#[cfg(test)]
mod stl_operands_cases;
#[cfg(test)]
mod wants;
