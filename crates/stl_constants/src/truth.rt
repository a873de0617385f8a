//! Truth values.
ghost use Rattle.std.specs.Prelude.{◌≡◌};
ghost use Rattle.s7_base.specs.declared.word.Width.TheVariants as width;
ghost use Rattle.stl_statement_grammar.specs.Constants.{constant, truth, truth_at};

use crate::constant::fitting;
use crate::words::is_word;
use s7_base::{Token, Width};
use stl_statement_grammar::Read;
use stl_tree::Constant;

fn bit(value: u32) -> Constant
    ensures { result ≡ constant width.Bit value }
{
    Constant {
        width: Width::Bit,
        signed: false,
        binary: false,
        value,
    }
}

fn truth(word: &Token) -> Option<Constant>
    ensures { result ≡ truth word.now }
{
    if is_word(word, "TRUE") {
        Some(bit(1))
    } else if is_word(word, "FALSE") {
        Some(bit(0))
    } else {
        None
    }
}

/// The constant `TRUE` or `FALSE`.
pub fn truth_at(tokens: &[Token]) -> Read<Constant>
    ensures { result ≡ truth_at tokens.now }
{
    match tokens {
        [first, ..] => fitting(1, truth(first)),
        [] => Read::No,
    }
}
