//! Tokens of a source text.

use crate::reason::Line;
use crate::small_text::SmallText;

/// The four sorts of tokens.
#[derive(Clone, Copy, Debug, PartialEq, Eq)]
pub enum TokenKind {
    /// A longest run of letters, digits and `_`.
    Word,

    /// The characters between two `"` on one line.
    Quoted,

    /// The characters between two `'` on one line.
    Text,

    /// A sign of one or two characters.
    Sign,
}

/// A token: its characters as they are written, without the quotes of a `Quoted` or a `Text`, and its line.
/// It is `glued` where no blank comes directly before it.
#[derive(Debug, Drop)]
pub struct Token {
    pub text: SmallText,
    pub line: Line,
    pub kind: TokenKind,
    pub glued: bool,
}
