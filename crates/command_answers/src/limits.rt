//! How long an input may be.

/// How many bytes a source may have.
pub const INPUT_LIMIT: usize = 4_194_304;

/// How many bytes an image may have.
pub const IMAGE_LIMIT: usize = 67_108_864;
