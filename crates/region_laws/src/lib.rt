//! Laws of texts whose statements take the place of the jumps of a graph program: they mean the same.
//!
//! A region says what a list of statements stands for: the nodes whose steps it holds, and where it leads. Uses `st_tree`,
//! and of `graph_rules` what a plain graph program is. It computes nothing.
#![tactic(auto)]

ghost use Rattle.region_laws.specs.RegionLaw.{RegionsAreRight};

/// A text whose units are those of regions that fit the units of a plain graph program means the same.
pub fn regions_are_right()
    ensures { RegionsAreRight }
{}
