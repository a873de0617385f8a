//! Laws of cycles and chains of calls. They compute nothing: their contracts are the laws.
ghost use Rattle.call_chains.specs.ChainLaws.{ChainsAreFollowed, CycleLinesAreNamed, EachHasFirstCycle};

/// Chains of n calls begin at the units from which n calls are followed, and at no other.
pub fn chains_are_followed()
    ensures { ChainsAreFollowed }
{}

/// Calls have a first line on which one lies on a cycle, or none of them lies on one.
pub fn each_has_first_cycle()
    ensures { EachHasFirstCycle }
{}

/// The lines of the calls on cycles are those that are named, and no others.
pub fn cycle_lines_are_named()
    ensures { CycleLinesAreNamed }
{}
