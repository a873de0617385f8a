//! The STL machine: it runs a block of a program on a memory, instruction by instruction.
//!
//! Uses `stl_tree`, whose effects of instructions and run it is proved to follow, `block_calls`, which keeps
//! the activations, `stl_registers`, `status_word`, `nesting_stack`, `address_registers`, `memory_areas` and
//! `s7_base`. Contracts see a machine as the point that its run has reached, so what it does in any further
//! number of steps is what the definition of a run says from there.
#![tactic(auto)]

pub use machine::{Machine, MachineRefusal};

mod effect;
mod machine;
mod state;
