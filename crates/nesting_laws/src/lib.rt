//! Laws of segments: which of them can be written with IF, CASE, WHILE, EXIT, CONTINUE and RETURN.
//!
//! A plan says how a segment is written, and is made from its first block on. These laws show that it exists exactly
//! where the segment is well nested by paths, that there is one alone, and how deep it is. Such a segment is well nested
//! where blocks that no path reaches stand before no arm of a jump list, but for those that end the arm before it. Uses
//! `stl_tree`, which has segments and says which are well nested; it computes nothing.
#![tactic(auto)]

ghost use Rattle.nesting_laws.specs.EndLaws.{EndByJumps};
ghost use Rattle.nesting_laws.specs.PlanLaws.{NestedByPathsIsPlanned, OnePlan, PlanIsLow, PlannedIsNested, PlannedIsNestedByPaths, PlannedIsWellNested, WellNestedIsPlanned};

/// A segment with a plan is nested: its loops are, and each jump list has arms.
pub fn planned_is_nested()
    ensures { PlannedIsNested }
{}

/// A segment with a plan is well nested by paths.
pub fn planned_is_nested_by_paths()
    ensures { PlannedIsNestedByPaths }
{}

/// A segment that is well nested by paths has a plan.
pub fn nested_by_paths_is_planned()
    ensures { NestedByPathsIsPlanned }
{}

/// A segment with a plan is well nested, where all blocks right before arms of jump lists end arms.
pub fn planned_is_well_nested()
    ensures { PlannedIsWellNested }
{}

/// A segment that is well nested has a plan.
pub fn well_nested_is_planned()
    ensures { WellNestedIsPlanned }
{}

/// A segment has one plan at most.
pub fn one_plan()
    ensures { OnePlan }
{}

/// A plan is at most 64 deep, where no block lies in too many loops, plain jumps and jump lists.
pub fn plan_is_low()
    ensures { PlanIsLow }
{}

/// The arms of a jump list end where plain jumps from arms before the last one lead, or at the last target.
pub fn end_by_jumps()
    ensures { EndByJumps }
{}
