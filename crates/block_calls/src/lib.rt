//! The activations of a run of STL: the block that runs, and those that wait for one that they called. Calls
//! find their actuals, instances take them and give them back.
//!
//! Uses `stl_tree`, whose definitions of calls it is proved to follow, `stl_registers`, `memory_areas` and
//! `s7_base`. Contracts see the frames as the activations of a run, but that the position at which the running
//! block goes on is kept by its user, who gives it at each call and gets it back at each end.
#![tactic(auto)]

pub use frames::Frames;

mod actuals;
mod copies;
mod fits;
mod frames;
mod places;
mod stack;
