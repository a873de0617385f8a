//! The source text of the demo: an STL program of as many networks as are asked for.
//!
//! Uses `s7_base`, and `itoa` for numbers. `specs/Demo.antt` says what the text is; the call gives exactly
//! that, and how long it may be.
#![tactic(auto)]

pub use source::{MOST_NETWORKS, demo_source};

mod network;
mod source;
mod text;
