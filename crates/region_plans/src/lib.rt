//! Laws of regions that are made by plans: they fit, and are no longer and no deeper than the unit lets them be.
//!
//! Uses `nesting_laws`, which has the plans, and `region_laws`, which has the regions. It computes nothing.
#![tactic(auto)]

ghost use Rattle.region_plans.specs.RegionLaws.{DrawnIsCharted, EmptyIsOff, PartFits, PartIsFlat, PartIsWithin, SegmentFits, SegmentIsShort, TextNests, TextWeighs};

/// A chart that is drawn from the blocks of a body is that of the body.
pub fn drawn_is_charted()
    ensures { DrawnIsCharted }
{}

/// A part of which no block is reached has no region.
pub fn empty_is_off()
    ensures { EmptyIsOff }
{}

/// The region of a part fits.
pub fn part_fits()
    ensures { PartFits }
{}

/// The region of a part weighs no more than its blocks.
pub fn part_is_within()
    ensures { PartIsWithin }
{}

/// The region of a part is as deep as its plan lets it be.
pub fn part_is_flat()
    ensures { PartIsFlat }
{}

/// The text of a region has as many tests, loops and statements as the region weighs.
pub fn text_weighs()
    ensures { TextWeighs }
{}

/// The text of a region that fits nests no deeper than its lists stand in one another, and its nodes.
pub fn text_nests()
    ensures { TextNests }
{}

/// The region of a segment fits.
pub fn segment_fits()
    ensures { SegmentFits }
{}

/// The text of a segment is short.
pub fn segment_is_short()
    ensures { SegmentIsShort }
{}
