//! Laws of runs. Each is the contract of a function that does nothing.
ghost use Rattle.stl_tree.specs.RunLaws.{EndStays, StepsAdd};

/// More steps never change a run that has ended.
pub fn end_stays()
    ensures { EndStays }
{}

/// A run of n + j steps is a run of n steps, continued by j steps.
pub fn steps_add()
    ensures { StepsAdd }
{}
