//! Laws of types: they are kept. Each is the contract of a function that does nothing.
ghost use Rattle.st_tree.specs.Fitting.{ProperCallsFit, RunsFit, StartFits, StatementsFit, ValuesFit};

/// The value of a well typed expression is of its type.
pub fn values_fit()
    ensures { ValuesFit }
{}

/// Well typed statements leave states that fit, where their calls do.
pub fn statements_fit()
    ensures { StatementsFit }
{}

/// Calls of a proper tree leave states that fit.
pub fn proper_calls_fit()
    ensures { ProperCallsFit }
{}

/// A call from outside begins in a state that fits.
pub fn start_fits()
    ensures { StartFits }
{}

/// The run of a call leads to states that fit alone.
pub fn runs_fit()
    ensures { RunsFit }
{}
