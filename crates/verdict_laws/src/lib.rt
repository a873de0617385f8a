//! The law of the verdict: it gives only programs that keep the rules of programs.
//!
//! It is about the definitions of `stl_rules` and `stl_tree`, and not about code. The crate computes nothing: the
//! contract of its function is the law.
#![tactic(auto)]

ghost use Rattle.verdict_laws.specs.VerdictLaws.{VerdictIsAccepted};

/// The verdict gives only programs that keep the rules of programs.
pub fn verdict_is_accepted()
    ensures { VerdictIsAccepted }
{}
