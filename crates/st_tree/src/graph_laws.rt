//! Laws of graph runs. Each is the contract of a function that does nothing.
ghost use Rattle.st_tree.specs.GraphRunLaws.{GraphEndStays, LengthIsFree};

/// A graph run may pass more nodes than its definition lets it: it reaches no more of them.
pub fn length_is_free()
    ensures { LengthIsFree }
{}

/// A larger bound never changes a graph run that has ended.
pub fn graph_end_stays()
    ensures { GraphEndStays }
{}
