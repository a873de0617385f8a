//! How long declarations may be.

/// The most bytes of a data block.
pub const MOST_IN_BLOCK: u32 = 16_384;

/// The most bytes of the local data of a block.
pub const MOST_LOCAL: u32 = 256;
