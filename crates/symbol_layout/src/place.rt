//! Types at their places.
use stl_tree::DeclType;

/// A type and its place in bits.
#[derive(Clone, Copy)]
pub struct Placed<'d> {
    pub place: u64,
    pub ty: &'d DeclType,
}
