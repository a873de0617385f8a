//! Laws of STL sources: what is written at a place of a text is what the forms of items, declarations,
//! initial values and addresses say, and the verdict accepts exactly the texts of this grammar.
//!
//! Uses `stl_grammar` and `stl_rules`, which have all definitions, and laws of constants, places and stages of
//! `stl_constants`, `stl_places` and `verdict_laws`. It computes nothing: the contracts of its functions are the laws.
#![tactic(auto)]

ghost use Rattle.stl_grammar.specs.Grammar.{ItemsHaveForms};
ghost use Rattle.stl_rules.specs.Accepting.{AcceptsTheGrammar};

/// What is read at a place of a text is what the forms of items say.
pub fn items_have_forms()
    ensures { ItemsHaveForms }
{}

/// The verdict accepts exactly the texts of the grammar, each as its program.
pub fn verdict_accepts_the_grammar()
    ensures { AcceptsTheGrammar }
{}
