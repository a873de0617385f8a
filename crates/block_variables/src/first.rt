//! The first of the broken rules so far.
ghost use Rattle.std.specs.Prelude.{◌≡◌};
ghost use Rattle.s7_base.specs.Broken.{rule_break};
ghost use Rattle.stl_rules.specs.BodyRules.{broken_if};
ghost use Rattle.block_variables.specs.Firsts.{first_of_two, with_breaks};

use s7_base::{Break, Line, Reason, sooner};

/// Notes a broken rule.
#[tactic(auto, using(crate::proofs::Firsts::one_more))]
pub fn note(first: &mut Option<Break>, line: Line, rule: Reason)
    ensures { first.new ≡ with_breaks first.old (rule_break line rule) }
{
    *first = sooner(*first, Break { line, rule });
}

/// Notes a broken rule where a condition is true.
#[tactic(auto, using(crate::proofs::Firsts::none_more))]
pub fn note_if(first: &mut Option<Break>, holds: bool, line: Line, rule: Reason)
    ensures { first.new ≡ with_breaks first.old (broken_if holds line rule) }
{
    if holds {
        note(first, line, rule);
    }
}

/// Notes the first of some more broken rules.
pub fn join(first: &mut Option<Break>, other: Option<Break>)
    ensures { first.new ≡ first_of_two first.old other }
{
    if let Some(other) = other {
        *first = sooner(*first, other);
    }
}
