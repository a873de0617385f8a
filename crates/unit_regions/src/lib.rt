//! Laws of the regions of units: that of a unit is those of its segments, one after another, each by its plan, or as a
//! dispatch loop.
//!
//! Uses `region_plans`, which has the regions of plans. It computes nothing.
#![tactic(auto)]

ghost use Rattle.unit_regions.specs.MadeLaws.{ChartIsRight, MadeIsRegion, MarksAreLeftOut, TextEnds, TextGoesOn, TextStops};
ghost use Rattle.unit_regions.specs.UnitLaws.{ArmsAreFew, CutsMakeSegments, DispatchFits, EndsByReturn, FollowedByAnyFits, FollowedByFits, FollowedByText, LeadsStay, LoopsAreFew, TableText, UnitFits, UnitIsFlat, UnitIsShort, UnitIsWithin, UnitLeadsOnward, UnitLoops};

/// Regions fit one after another.
pub fn followed_by_fits()
    ensures { FollowedByFits }
{}

/// Behind a region that does not fall off its end any other fits.
pub fn followed_by_any_fits()
    ensures { FollowedByAnyFits }
{}

/// The texts of regions stand one after another.
pub fn followed_by_text()
    ensures { FollowedByText }
{}

/// Whether a region falls off its end shows in its last statement.
pub fn ends_by_return()
    ensures { EndsByReturn }
{}

/// Between neighbouring cuts there are segments.
pub fn cuts_make_segments()
    ensures { CutsMakeSegments }
{}

/// No exit of a block that is reached passes over a cut.
pub fn leads_stay()
    ensures { LeadsStay }
{}

/// A dispatch loop fits.
pub fn dispatch_fits()
    ensures { DispatchFits }
{}

/// The region of a unit fits.
pub fn unit_fits()
    ensures { UnitFits }
{}

/// What exits lead to lies ahead, or takes a unit of work.
pub fn unit_leads_onward()
    ensures { UnitLeadsOnward }
{}

/// A unit has a dispatch loop for each segment without a plan.
pub fn unit_loops()
    ensures { UnitLoops }
{}

/// A unit has no more dispatch loops than segments.
pub fn loops_are_few()
    ensures { LoopsAreFew }
{}

/// Dispatch loops have no more arms than their segments have blocks.
pub fn arms_are_few()
    ensures { ArmsAreFew }
{}

/// The region of a unit weighs no more than its blocks and dispatch loops.
pub fn unit_is_within()
    ensures { UnitIsWithin }
{}

/// The region of a unit is at most 65 deep.
pub fn unit_is_flat()
    ensures { UnitIsFlat }
{}

/// The region that is made does not depend on the marks of blocks.
pub fn marks_are_left_out()
    ensures { MarksAreLeftOut }
{}

/// The chart that is made of a plain unit is right.
pub fn chart_is_right()
    ensures { ChartIsRight }
{}

/// What is made of a plain unit is the text of a region that fits it.
pub fn made_is_region()
    ensures { MadeIsRegion }
{}

/// The text of the last segment of a unit.
pub fn text_ends()
    ensures { TextEnds }
{}

/// The text of a segment behind which nothing is written.
pub fn text_stops()
    ensures { TextStops }
{}

/// The text of a segment before others.
pub fn text_goes_on()
    ensures { TextGoesOn }
{}

/// The text of a unit is short.
pub fn unit_is_short()
    ensures { UnitIsShort }
{}

/// The text of a block with a table has an arm for each entry.
pub fn table_text()
    ensures { TableText }
{}
