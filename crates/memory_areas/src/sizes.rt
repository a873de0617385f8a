//! How large the areas of a memory are.

/// The bytes of the process image of the inputs.
pub const INPUT_BYTES: usize = 2048;

/// The bytes of the process image of the outputs.
pub const OUTPUT_BYTES: usize = 2048;

/// The bytes of the bit memory.
pub const MARKER_BYTES: usize = 8192;

/// How many blocks a chain of calls may have, each with local data of its own.
pub const ACTIVATIONS: usize = 8;

/// The bytes of the local data of an activation, and of its constant actuals.
pub const LOCAL_BYTES: usize = 256;

/// How many data blocks a memory may have.
pub const MOST_BLOCKS: usize = 1024;

/// The fewest bytes of a data block.
pub const LEAST_BLOCK_BYTES: usize = 2;

/// The most bytes of a data block.
pub const MOST_BLOCK_BYTES: usize = 16384;
