//! The shape of the statements of a unit: how many loops, tests and CASE statements it may have by the blocks of the
//! body that it was made from, and how it may use its selector.
//!
//! Uses `stl_tree`, which defines segments, `st_tree`, which has the statements, and of `graph_rules` the statements of
//! nodes. It computes nothing.
#![tactic(auto)]

ghost use Rattle.text_shapes.specs.ShapeLaws.{AllAreAmong, CountsAdd, MoreJumpsAllowMore, SelectorIsKept, WorkedTextIsCounted};

/// What is counted of two texts, one after the other, is the sum.
pub fn counts_add()
    ensures { CountsAdd }
{}

/// What has a shape has it also where there may be more tests and jump lists.
pub fn more_jumps_allow_more()
    ensures { MoreJumpsAllowMore }
{}

/// Segments are among themselves.
pub fn all_are_among()
    ensures { AllAreAmong }
{}

/// A worked text is counted.
pub fn worked_text_is_counted()
    ensures { WorkedTextIsCounted }
{}

/// The selector may be chosen by and take a literal; it takes no other value, is given to no call, and is in no test.
pub fn selector_is_kept()
    ensures { SelectorIsKept }
{}
