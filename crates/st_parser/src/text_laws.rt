//! Laws of what the reading of a text is. They compute nothing: their contracts are the laws.
ghost use Rattle.st_parser.specs.TextLaws.{EachHasOne, NotBoth, OneRefusal, OneTree, ProperReadsBack, Rereads, WhatIsReadIsProper};

/// A text has one tree at most.
pub fn one_tree()
    ensures { OneTree }
{}

/// A text has one refusal at most.
pub fn one_refusal()
    ensures { OneRefusal }
{}

/// No text has both a tree and a refusal.
pub fn not_both()
    ensures { NotBoth }
{}

/// Each text has a tree or a refusal.
pub fn each_has_one()
    ensures { EachHasOne }
{}

/// The canonical text of a proper tree reads back as the tree.
pub fn proper_reads_back()
    ensures { ProperReadsBack }
{}

/// What a text reads as is proper.
pub fn what_is_read_is_proper()
    ensures { WhatIsReadIsProper }
{}

/// The canonical text of what a text reads as reads as the same tree.
pub fn rereads()
    ensures { Rereads }
{}
