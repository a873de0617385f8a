//! Levels of nesting.
ghost use Rattle.std.specs.Prelude.{◌≡◌, ◌+◌, nat_lt};
ghost use Rattle.st_tree.specs.Depth.{deepest};
ghost use Rattle.st_grammar.specs.inner.Machine.{code};
ghost use Rattle.st_grammar.specs.inner.Steps.{level_at};
ghost use Rattle.st_statement_parser.specs.inner.BodyStates.{place_of, stack_of};

use crate::body_state::{BodyState, Frame, Place};

/// The greatest level of nesting.
const DEEPEST: usize = 200;

/// Whether a level is above the greatest.
fn is_above(depth: usize, height: usize) -> bool
    ensures { result ≡ nat_lt deepest (depth + height) }
{
    depth > DEEPEST || height > DEEPEST - depth
}

/// Whether the last token of statements made a level above the greatest.
pub fn is_deep_at(at: &BodyState) -> bool
    ensures { result
        ≡ nat_lt deepest (level_at code at.now.depth (place_of at.now.place) (stack_of at.now.frames)) }
{
    match at.place {
        Place::Operand => match at.frames.as_slice().last() {
            Some(Frame::Left(_, left)) => is_above(at.depth, left.height),
            _ => at.depth > DEEPEST,
        },
        _ => at.depth > DEEPEST,
    }
}
