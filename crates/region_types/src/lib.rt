//! Laws of the statements that take the place of the jumps of a graph program: they keep the rules of a text.
//!
//! Where the nodes of a unit are well typed, so are the statements; they nest little deeper, and call nothing else. So
//! the text is proper. Uses `st_tree`, `graph_rules` and the regions of `region_laws`. It computes nothing.
#![tactic(auto)]

ghost use Rattle.region_types.specs.ProperLaw.{PlainNodesAreLow, TextIsProper, TextIsRight};
ghost use Rattle.region_types.specs.TextLaws.{FewerCallsAreShorter, TextCalls, TextIsLow, TextIsTyped};

/// The statements of a region are well typed.
pub fn text_is_typed()
    ensures { TextIsTyped }
{}

/// The statements of a region nest little deeper than those of the nodes.
pub fn text_is_low()
    ensures { TextIsLow }
{}

/// The statements of a region call what the nodes call.
pub fn text_calls()
    ensures { TextCalls }
{}

/// Where units call no more, no chain of calls is longer.
pub fn fewer_calls_are_shorter()
    ensures { FewerCallsAreShorter }
{}

/// The statements of the nodes of a plain unit nest at most 64 deep.
pub fn plain_nodes_are_low()
    ensures { PlainNodesAreLow }
{}

/// The text of a plain graph program is proper, where each unit is the statements of such a region.
pub fn text_is_proper()
    ensures { TextIsProper }
{}

/// It means the same as the graph program.
pub fn text_is_right()
    ensures { TextIsRight }
{}
