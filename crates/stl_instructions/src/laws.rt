//! The law of instructions. It computes nothing: its contract is the law.
ghost use Rattle.stl_statement_grammar.specs.InstructionForms.{InstructionsHaveForms};

/// Tokens are an instruction exactly where they have its form.
pub fn instructions_have_forms()
    ensures { InstructionsHaveForms }
{}
