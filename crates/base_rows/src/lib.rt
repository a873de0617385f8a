//! Cases for what no clause says of the libraries below either language, and what no command of the program
//! shows: that a definition gives the values which the rules give, the exact texts, that a call answers while
//! there is memory, and what comes of reads and writes that fail.
//!
//! A module has the cases of the library that its name begins with, over public calls alone.
#![tactic(auto)]

#[cfg(test)]
mod address_registers_cases;
#[cfg(test)]
mod command_words_cases;
#[cfg(test)]
mod memory_areas_cases;
#[cfg(test)]
mod s7_base_cases;
#[cfg(test)]
mod s7_demo_cases;
#[cfg(test)]
mod s7_io_cases;
#[cfg(test)]
mod wants;
