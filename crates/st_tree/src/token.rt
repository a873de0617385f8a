//! Tokens of an ST text.

use s7_base::{Line, List};

/// The sorts of tokens.
#[derive(Clone, Copy, Debug, PartialEq, Eq)]
pub enum StKind {
    /// A longest run of letters, digits and `_` that begins with no digit.
    Word,

    /// A direct variable, as `%IX0.0`.
    Direct,

    /// A number, or a type, `#` and a value.
    Literal,

    /// A sign of one or two characters.
    Sign,
}

/// A token: its characters as they are written, and its line.
#[derive(Debug, Drop, PartialEq)]
pub struct StToken {
    pub kind: StKind,
    pub text: List<u8>,
    pub line: Line,
}
