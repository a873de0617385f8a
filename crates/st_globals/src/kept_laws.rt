//! Laws of statements with other variables. Each is the contract of a function that does nothing.
ghost use Rattle.st_globals.specs.KeptLaws.{HeightsAreKept, KindsAreKept, NestingIsKept, ReadsAreKept, StatementsAreKept, VariablesAreKept};

/// A statement stays of its kind.
pub fn kinds_are_kept()
    ensures { KindsAreKept }
{}

/// The statements of a body, at every depth, are the old ones with other variables.
pub fn statements_are_kept()
    ensures { StatementsAreKept }
{}

/// An expression reads the other variables in the same order.
pub fn reads_are_kept()
    ensures { ReadsAreKept }
{}

/// Statements name the other variables in the same order.
pub fn variables_are_kept()
    ensures { VariablesAreKept }
{}

/// Expressions are as high, and as deep with their brackets.
pub fn heights_are_kept()
    ensures { HeightsAreKept }
{}

/// Statements nest as deep.
pub fn nesting_is_kept()
    ensures { NestingIsKept }
{}
