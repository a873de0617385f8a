//! The runner of Structured Text: it runs a unit of a tree on a memory, within a number of units of work.
//!
//! Uses `st_tree`, whose meaning of expressions and statements it is proved to follow, `memory_areas`,
//! `address_registers`, `bcd_words` and `s7_base`. Contracts see a runner as the point that its run has
//! reached (`specs/Standing`), plain data that says how the run ends within any further number of units. A
//! tree that is run keeps the rules of a text (`Proper` of `st_tree`), so its statements and calls nest no
//! deeper than they may. What a run may need is reserved when a runner is made, so that a run takes no
//! memory.
#![tactic(auto)]

pub use runner::{Runner, RunnerRefusal};

mod call;
mod calling;
mod evaluate;
mod frame;
mod leaving;
mod locate;
mod operators;
mod plan;
mod registers;
mod reserve;
mod runner;
mod runs;
mod state;
mod steps;
mod table;
