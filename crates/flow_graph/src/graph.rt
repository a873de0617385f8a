//! The graph of a body.
ghost use Rattle.std.specs.Prelude.{◌≤◌, length, IfOk};
ghost use Rattle.stl_tree.specs.Accepted.{AreTargets, IsEnded};
ghost use Rattle.flow_graph.specs.Graphs.{IsGraphOf};

use crate::nodes::{blocks, joined_nodes};
use crate::points::cuts;
use crate::search::reach;
use s7_base::{List, NoMemory};
use std::alloc::Global;
use stl_tree::Instr;

/// How a body goes on after a node. Numbers are those of nodes.
#[derive(Drop)]
pub enum Exit {
    /// With the next node.
    Fall,

    /// At a node.
    Jump(u32),

    /// At a node, or with the next one.
    Branch(u32),

    /// The body ends, or the next node follows: `BEC`.
    EndIf,

    /// At one of some nodes, or at a last one: `JL`, with the node of each `JU` and that of its label.
    Table(List<u32>, u32),

    /// The body ends.
    End,
}

/// A block of a body: the positions of its first instruction and of the one after its last, and how it goes on.
#[derive(Drop)]
pub struct Node {
    pub first: u32,
    pub past: u32,
    pub exit: Exit,
}

/// The nodes of a body in the order of the source, and the numbers of the nodes before which it can be cut.
#[derive(Drop)]
pub struct Graph {
    pub nodes: List<Node>,
    pub cuts: List<u32>,
}

/// The graph of a body whose jumps lead to its instructions.
#[tactic(auto, using(crate::proofs::Whole::is_graph))]
pub fn graph_of(alloc: Global, body: &[Instr]) -> Result<Graph, NoMemory>
    requires targets { AreTargets body.now }
    requires ended { IsEnded body.now }
    requires few { length body.now ≤ 32769 }
    ensures { IfOk result (IsGraphOf body.now) }
{
    let (bounds, exits) = blocks(alloc, body)?;
    let reached = reach(alloc, exits.as_slice())?;
    let cuts = cuts(alloc, exits.as_slice(), reached.as_slice())?;
    let nodes = joined_nodes(alloc, bounds.as_slice(), exits)?;
    Ok(Graph { nodes, cuts })
}
