//! Declarations as they are written, and those that are open.

use s7_base::{Line, List};
use std::collections::LinkedList;
use stl_tree::{Declaration, ElemType, InitialItem};

/// The type of a declaration inside all its arrays.
#[derive(Clone, Copy)]
pub enum Innermost {
    Elementary(ElemType),
    DateAndTime,

    /// A STRUCT, whose members follow.
    Struct,
}

/// A declaration after its name: the bounds of its arrays, the outermost first, the type inside them, and its
/// initial values; those of a STRUCT come after its members.
#[derive(Drop)]
pub struct Written {
    pub arrays: LinkedList<List<(i64, i64)>>,
    pub innermost: Innermost,
    pub initial: List<InitialItem>,
}

/// A section of declarations, in the order in which they come; `Own` is the STRUCT of a data block with
/// declarations of its own.
#[derive(Clone, Copy)]
pub enum Section {
    Input,
    Output,
    InOut,
    Static,
    Temp,
    Own,
}

/// A STRUCT that is open: the line of its declaration, how many levels are open with it, each STRUCT and each
/// ARRAY being one, and whether its declaration has an array around it.
#[derive(Clone, Copy)]
pub struct Level {
    pub line: Line,
    pub depth: usize,
    pub in_array: bool,
}

/// A STRUCT that is open, with its members so far.
#[derive(Drop)]
pub struct OpenStruct {
    pub name: List<u8>,
    pub line: Line,
    pub arrays: LinkedList<List<(i64, i64)>>,
    pub members: List<Declaration>,
}
