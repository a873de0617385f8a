//! Laws of trees. Each is the contract of a function that does nothing.
ghost use Rattle.st_tree.specs.ProperLaws.{TypesAgree};

/// The type of a well typed expression is the one in which its canonical text writes labels.
pub fn types_agree()
    ensures { TypesAgree }
{}
