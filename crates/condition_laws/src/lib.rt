//! What is made of statements whose conditions are put in their place, and laws of it: it runs as they do, is proper as
//! they are, and is counted as no more.
//!
//! Uses `st_tree`, which says what trees mean and which ones a text can have, and of `graph_rules` and `text_shapes`
//! how deep expressions nest and what is counted of statements. It computes nothing.
#![tactic(auto)]

ghost use Rattle.condition_laws.specs.ConditionLaws.{MadeHasElsif, MadeIsKept, MadeIsNoLarger, MadeIsProper, MadeRunsAlike, NoLargerIsShaped};

/// The tree that is made of a proper one is proper.
pub fn made_is_proper()
    ensures { MadeIsProper }
{}

/// It keeps all but statements.
pub fn made_is_kept()
    ensures { MadeIsKept }
{}

/// It runs as that one does.
pub fn made_runs_alike()
    ensures { MadeRunsAlike }
{}

/// Its bodies are no larger.
pub fn made_is_no_larger()
    ensures { MadeIsNoLarger }
{}

/// A body that is no larger than one with a shape has that shape too.
pub fn no_larger_is_shaped()
    ensures { NoLargerIsShaped }
{}

/// No IF of it has an IF alone after its ELSE.
pub fn made_has_elsif()
    ensures { MadeHasElsif }
{}
