//! What is declared in the part of a text that is judged so far.
use s7_base::{Break, List};
use st_names::scope::Meaning;
use st_names::table::Table;

/// What is declared outside the units so far, and the rules that are broken there.
#[derive(Drop)]
pub struct Outside {
    pub names: Table<Meaning>,

    /// How many globals there are that are no data blocks.
    pub globals: u32,

    /// How many data blocks there are of different numbers.
    pub blocks: u32,
    pub units: u32,
    pub breaks: List<Break>,
}

/// What is declared in a unit so far, and the rules that are broken there.
#[derive(Drop)]
pub struct Inside {
    pub names: Table<Meaning>,
    pub formals: u32,
    pub locals: u32,
    pub breaks: List<Break>,
}
