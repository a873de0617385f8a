//! Laws of what a Structured Text reads as: of its syntax, and of its names, types, places and calls.
//!
//! Each text has one syntax tree or one refusal, and the pass over its tokens judges exactly this; a text has one tree
//! or one refusal at most once its names are looked up. The laws are about the definitions of `st_grammar` and
//! `st_rules`, and not about code. Other crates cite their parts: what a text declares that has a tree, and what the
//! rules make of expressions, statements and calls. The crate computes nothing: the contracts of its functions are the
//! laws.
#![tactic(auto)]

ghost use Rattle.st_reading_laws.specs.SyntaxLaws.{
  EachHasOneSyntax,
  NotBothSyntaxes,
  OneGrammar,
  OneRawTree,
  OneSyntaxRefusal,
};
ghost use Rattle.st_reading_laws.specs.inner.JudgeLaws.{JudgedRefusals, JudgedTrees};
ghost use Rattle.st_reading_laws.specs.TypedLaws.{NotBoth, OneRefusal, OneTree};

/// A text has one tree at most before its names are looked up.
pub fn one_raw_tree()
    ensures { OneRawTree }
{}

/// A text is refused for its tokens or its syntax on one line and for one reason at most.
pub fn one_syntax_refusal()
    ensures { OneSyntaxRefusal }
{}

/// No text has both a raw tree and a refusal for its tokens or its syntax.
pub fn not_both_syntaxes()
    ensures { NotBothSyntaxes }
{}

/// Each text has a raw tree or a refusal for its tokens or its syntax.
pub fn each_has_one_syntax()
    ensures { EachHasOneSyntax }
{}

/// The grammar of expressions with a case for each binding strength has those of the forms that keep
/// their brackets, with the same trees.
pub fn one_grammar()
    ensures { OneGrammar }
{}

/// The tree to which the pass judges a text good is its raw tree, and no other is.
pub fn judged_trees()
    ensures { JudgedTrees }
{}

/// The refusal that the pass judges a text to have is that of its tokens or its syntax, and no other is.
pub fn judged_refusals()
    ensures { JudgedRefusals }
{}

/// A text has one tree at most.
pub fn one_tree()
    ensures { OneTree }
{}

/// A text has one refusal at most.
pub fn one_refusal()
    ensures { OneRefusal }
{}

/// No text has both a tree and a refusal.
pub fn not_both()
    ensures { NotBoth }
{}
