//! An expression while it is read.

use st_tree::RawExpr;

/// An expression, and the height of its tree.
#[derive(Drop)]
pub struct Measured {
    pub tree: RawExpr,
    pub height: usize,
}
