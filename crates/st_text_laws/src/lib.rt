//! Laws of a text and its tree: the canonical text of a tree reads as it, a proper tree has such a text, and what a text
//! reads as is proper.
//!
//! The canonical form of a tree is the syntax that its canonical text has. The laws are about the definitions of
//! `st_lexer`, `st_grammar` and `st_rules`, which say what a text has, and of `st_tree`, which says what is proper. The
//! crate computes nothing: the contracts of its functions are the laws.
#![tactic(auto)]

ghost use Rattle.st_text_laws.specs.CanonicalForms.{ProperHasForm};
ghost use Rattle.st_text_laws.specs.CanonicalLaws.{CanonicalTextReads};
ghost use Rattle.st_text_laws.specs.ReadProper.{ReadsAreProper};

/// The canonical text of a tree has the canonical form of the tree as its syntax.
pub fn canonical_text_reads()
    ensures { CanonicalTextReads }
{}

/// A proper tree has a canonical form that is of the language and means the tree.
pub fn proper_has_form()
    ensures { ProperHasForm }
{}

/// What a text reads as is proper.
pub fn read_proper()
    ensures { ReadsAreProper }
{}
