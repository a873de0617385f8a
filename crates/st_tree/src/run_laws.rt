//! Laws of runs. Each is the contract of a function that does nothing.
ghost use Rattle.st_tree.specs.StRunLaws.{DepthIsFree, EndStays};

/// More units never change a run that has ended.
pub fn end_stays()
    ensures { EndStays }
{}

/// A greater limit on the nesting of calls than the number of units does not change what a call means.
pub fn depth_is_free()
    ensures { DepthIsFree }
{}
