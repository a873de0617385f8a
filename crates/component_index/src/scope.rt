//! Scopes of declarations.
use crate::table::Table;
use stl_tree::{DeclType, Declaration};

/// The number of the scope of the STRUCT inside a type, and the length of that STRUCT in bits. Where no
/// STRUCT is inside, both have any value.
#[derive(Clone, Copy)]
pub struct Inner {
    pub scope: usize,
    pub bits: u64,
}

/// A type at its place in bits, with the scope inside.
#[derive(Clone, Copy)]
pub struct Entry<'d> {
    pub place: u64,
    pub ty: &'d DeclType,
    pub inner: Inner,
}

/// The components of a STRUCT, and their names from place 0 on.
#[derive(Drop)]
pub struct StructScope<'d> {
    pub decls: &'d [Declaration],
    pub names: Table<'d>,
}
