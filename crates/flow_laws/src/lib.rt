//! Laws of graphs of accepted bodies: each block has no jump but at its end, and goes on where the nodes of the graph begin.
//!
//! Uses `flow_graph`, whose graphs these laws are about. It computes nothing.
#![tactic(auto)]
