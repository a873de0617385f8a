//! Comparisons, each proved once: an assertion costs the prover seconds wherever it is written.
use std::fmt::Debug;
use std::process::Abort;

/// Ends the test where the two values differ. `case` names the case.
pub fn wants<T: PartialEq + Debug>(rt: &impl Abort, case: &impl Debug, found: &T, wanted: &T) {
    assert!(rt; *found == *wanted, "{case:?}: {found:?} is not {wanted:?}");
}

/// Ends the test where the two texts differ. `case` names the case.
pub fn wants_text(rt: &impl Abort, case: &[u8], found: &[u8], wanted: &[u8]) {
    assert!(rt;
        found == wanted,
        "{}: {}",
        case.escape_ascii(),
        found.escape_ascii()
    );
}
