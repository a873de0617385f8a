//! How a run of a program ends, or that it has not ended, on either side of the translation.

/// What ends a run before its block ends.
#[derive(Clone, Copy, Debug, PartialEq, Eq)]
pub enum Fault {
    /// A data block is accessed and none is open.
    DbNotOpen,

    /// The data block does not exist.
    DbMissing,

    /// The area code of a pointer names no area.
    AreaCode,

    /// A byte or more is accessed at a bit number that is not 0.
    Alignment,

    /// A byte past the end of its area is accessed.
    AreaLength,

    /// A digit of a BCD number is above 9.
    BcdDigit,

    /// A division by zero, which Structured Text alone has.
    DivideByZero,
}

/// A run within a bound on its steps or units.
#[derive(Clone, Copy, Debug, PartialEq, Eq)]
pub enum Outcome {
    /// The run ended within the bound, with a fault or without one.
    Ended(Option<Fault>),

    /// The run has not ended within the bound.
    Going,
}
