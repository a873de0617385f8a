//! Declarations with their layout.

use s7_base::List;
use stl_tree::ElemType;

/// The length of declarations in bytes, and their initial bytes.
#[derive(Debug, Drop, PartialEq)]
pub struct Layout {
    pub length: u32,
    pub initial: List<u8>,
}

/// The place of a component in bits, and its type where that is elementary.
#[derive(Clone, Copy, Debug, PartialEq, Eq)]
pub struct Component {
    pub byte: u32,
    pub bit: u8,
    pub kind: Option<ElemType>,
}

/// The alignment and the length of a type, in bits.
#[derive(Clone, Copy, Debug, PartialEq, Eq)]
pub struct Extent {
    pub alignment: u64,
    pub bits: u64,
}
