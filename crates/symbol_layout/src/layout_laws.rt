//! A law of layouts.
ghost use Rattle.stl_rules.specs.Extents.{StandsAtLeast};

/// A component is at the least place that its alignment allows at or after the end of what comes before it.
pub fn components_stand_at_the_least()
    ensures { StandsAtLeast }
{}
