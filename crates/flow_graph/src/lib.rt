//! The graph of a body: its blocks, how each goes on, and where the body can be cut.
//!
//! What blocks and cuts are is defined in `stl_tree`. Everything here takes time in proportion to the body: where
//! blocks begin and the nodes from there in one pass each, which nodes are reached by a search that looks at each
//! node once, and the cuts by one pass over the nodes that are reached and one over all. That search and the cuts need
//! only the exits of nodes, and so are there for any list of exits.
#![tactic(auto)]

pub use graph::{Exit, Graph, Node, graph_of};
pub use points::cuts;
pub use search::reach;

mod beginnings;
mod exits;
mod graph;
mod nodes;
mod points;
mod search;
