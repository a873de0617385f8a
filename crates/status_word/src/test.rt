//! The flags of the status word, and what instructions ask of them.

/// A bit of the status word. `Nfc` is the one that is written /FC: 0 where the next check is the first of its
/// chain.
#[derive(Clone, Copy, Debug, PartialEq, Eq)]
pub enum Flag {
    Nfc,
    Rlo,
    Sta,
    Orb,
    Os,
    Ov,
    Cc0,
    Cc1,
    Br,
}

/// A test of the status word: how a result compares with 0, whether it is no number, or a flag alone.
#[derive(Clone, Copy, Debug, PartialEq, Eq)]
pub enum Test {
    Eq,
    Ne,
    Gt,
    Lt,
    Ge,
    Le,
    Uo,
    Ov,
    Os,
    Br,
}
