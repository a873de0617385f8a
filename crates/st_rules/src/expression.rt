//! An expression as it is judged.
use st_tree::{Expr, StType};

/// An expression of the tree, and its type.
#[derive(Drop)]
pub struct Typed {
    pub ty: StType,
    pub tree: Expr,
}
