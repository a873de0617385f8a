//! Graph programs: each unit's statements as nodes, whose exits say where it goes on.

use crate::expr::Expr;
use crate::program::{Located, Pou, Stmt};
use memory_areas::DataBlock;
use s7_base::List;

/// Where a unit continues after a node. The numbers are positions of nodes of the same unit.
#[derive(Drop)]
pub enum StExit {
    /// At the next node.
    Fall,

    Jump(u32),

    /// At this node where the test is TRUE, else at the next node.
    Branch(Expr, u32),

    /// The unit ends where the test is TRUE, else the next node follows.
    EndIf(Expr),

    /// At the node that the list has at the value's position, counted from 0, or else at the last one.
    Table(Expr, List<u32>, u32),

    /// The unit ends.
    End,
}

/// Statements without jumps, and where the unit continues after them.
#[derive(Drop)]
pub struct StNode {
    pub steps: List<Stmt>,
    pub exit: StExit,

    /// The node of a block that holds the end word alone.
    pub only_end: bool,
}

/// The nodes of a unit. It begins at the first one.
#[derive(Drop)]
pub struct StGraph {
    pub nodes: List<StNode>,
}

/// A unit: its head, whose body is empty, and its nodes.
#[derive(Drop)]
pub struct GraphPou {
    pub head: Pou,
    pub graph: StGraph,
}

/// A text whose units are graphs: its data blocks by number, its other globals, and its units in their order.
#[derive(Drop)]
pub struct GraphProgram {
    pub dbs: List<DataBlock>,
    pub globals: List<Located>,
    pub pous: List<GraphPou>,
}
