//! The calls between units as a graph: the first line on which a call lies on a cycle, and where chains of a
//! number of calls begin. It knows nothing of a language but a call's line and the position of the unit that
//! is called.
#![tactic(auto)]

pub use call::Call;
pub use cycle::first_cycle;
pub use depth::chains;

mod call;
mod candidate;
pub mod chain_laws;
mod components;
mod cycle;
mod depth;
mod search;
