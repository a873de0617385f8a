//! A law of broken rules.
ghost use Rattle.s7_base.specs.BrokenLaws.{FirstOfAll};

/// The first of some broken rules is one of them, and no other comes before it.
pub fn first_of_all_is_first()
    ensures { FirstOfAll }
{}
