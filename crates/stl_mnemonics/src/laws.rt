//! The law of mnemonics. It computes nothing: its contract is the law.
ghost use Rattle.stl_statement_grammar.specs.InstructionForms.{MnemonicsAreLongest};

/// The mnemonic at the front of tokens is the longest of the table with which they begin.
pub fn mnemonics_are_longest()
    ensures { MnemonicsAreLongest }
{}
