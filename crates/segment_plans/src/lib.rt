//! Which segments of a unit can be written as statements, and what is written at each block of one.
//!
//! A segment that has a plan, and whose blocks lie in few loops, jumps and jump lists, may be written without the
//! selector, if blocks right before arms end them, or it has at most one loop. The plan itself is not made: `piece_at`
//! tells what it has at a block, from the block alone.
//! A block is looked at once for each loop, arm and list around it, of which there are at most 64.
#![tactic(auto)]

pub use arms::next_arm;
pub use blocks::{Blocks, blocks_of};
pub use nested::{may_split, whole};
pub use planning::{
    Around, Kind, Part, Piece, after, arm, body, first_arm, is_behind, list_arm, piece_at,
};

mod arms;
mod blocks;
mod closed;
mod nested;
mod planning;
mod spans;
