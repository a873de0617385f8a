//! The bit checks, and what an open bracket keeps.

/// How a bit check combines its bit with the result of logic operation.
#[derive(Clone, Copy, Debug, PartialEq, Eq)]
pub enum Check {
    /// AND.
    A,

    /// AND with the bit negated.
    An,

    /// OR.
    O,

    /// OR with the bit negated.
    On,

    /// Exclusive OR.
    X,

    /// Exclusive OR with the bit negated.
    Xn,
}

/// What an open bracket keeps until it is closed: its check, and the RLO, OR and /FC from before it.
#[derive(Clone, Copy, Debug, PartialEq, Eq)]
pub struct Entry {
    pub check: Check,
    pub rlo: bool,
    pub orb: bool,
    pub nfc: bool,
}
