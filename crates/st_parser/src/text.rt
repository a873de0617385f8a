//! Reads a Structured Text: first its syntax, then its names, types, places and calls.
ghost use Rattle.std.specs.Prelude.{IfErr, IfOk};
ghost use Rattle.s7_base.specs.Answers.{IfRefused};
ghost use Rattle.st_grammar.specs.Syntax.{HasRawTree, IsSyntaxRefused};
ghost use Rattle.st_parser.specs.Texts.{IsRefusedAs, IsTextOf};
ghost use Rattle.st_tree.specs.Proper.{Proper};

use s7_base::Rejection;
use st_tree::{RawSt, StProgram};
use st_types::typed;
use std::alloc::Global;

/// The tree of a text before its names are looked up, or the line and the reason of its first broken
/// rule of syntax or nesting.
pub fn syntax(alloc: Global, bytes: &[u8]) -> Result<RawSt, Rejection>
    ensures tree { IfOk result (HasRawTree bytes.now) }
    ensures refused { IfRefused result (IsSyntaxRefused bytes.now) }
{
    st_syntax::syntax(alloc, bytes)
}

/// The tree of a text, or the line and the reason of the first rule that it breaks.
pub fn parse(alloc: Global, bytes: &[u8]) -> Result<StProgram, Rejection>
    ensures tree { IfOk result (IsTextOf bytes.now) }
    ensures refused { IfErr result (IsRefusedAs bytes.now) }
    ensures proper { IfOk result Proper }
{
    match syntax(alloc, bytes) {
        Ok(raw) => typed(alloc, raw),
        Err(refused) => Err(refused),
    }
}
