//! The end of an expression that a statement needs.
ghost use Rattle.std.specs.Prelude.{◌≡◌, IfOk};
ghost use Rattle.st_grammar.specs.inner.Machine.{code, area_value, loop_test, selector, test, to_area, to_var};
ghost use Rattle.st_grammar.specs.inner.Steps.{need_closed};
ghost use Rattle.st_grammar.specs.declared.kind.GrammarKind.TheVariants as kind;
ghost use Rattle.st_statement_parser.specs.inner.BodyStates.{begun_statement_of, leads_to, measured_of, need_of, stack_of};

use crate::body_state::{
    BegunIfArm, BegunStatement, BegunWrite, BodyState, Cases, Need, OuterStatement, Part,
};
use crate::expression::{EndedExpression, box_expression};
use s7_base::{Boxed, List, NoMemory, Width};
use st_grammar::Fixed;
use st_tree::{RawArm, RawStmt, RawStmtKind, RawVar};
use std::alloc::Global;

/// The value of an assignment ends.
fn end_assignment(
    at: &mut BodyState,
    mut begun: BegunStatement,
    var: RawVar,
    ended: EndedExpression,
) -> Result<bool, NoMemory>
    ensures { IfOk result (λ goes. leads_to goes at.new
        ≡ need_closed code at.old.depth (stack_of at.old.frames)
        (begun_statement_of begun) (to_var var) ended.value (kind.Fixed ended.word)) }
{
    let EndedExpression { value, word } = ended;
    let Fixed::Semicolon = word else {
        drop(value);
        return Ok(false);
    };
    begun.before.push(RawStmt {
        line: begun.line,
        kind: RawStmtKind::Assign(var, value.tree),
    })?;
    at.go_statement(begun.before);
    Ok(true)
}

/// The pointer of an AREA_WRITE ends, and its value begins.
fn pointer_closed(
    alloc: Global,
    at: &mut BodyState,
    begun: BegunStatement,
    width: Width,
    ended: EndedExpression,
) -> Result<bool, NoMemory>
    ensures { IfOk result (λ goes. leads_to goes at.new
        ≡ need_closed code at.old.depth (stack_of at.old.frames)
        (begun_statement_of begun) (to_area width) ended.value (kind.Fixed ended.word)) }
{
    let EndedExpression { value, word } = ended;
    let Fixed::Comma = word else {
        drop(value);
        return Ok(false);
    };
    let pointer = box_expression(alloc, value)?;
    at.wait(begun, Need::AreaValue(BegunWrite { width, pointer }))?;
    Ok(true)
}

/// The value of an AREA_WRITE ends.
fn end_area_write(
    alloc: Global,
    at: &mut BodyState,
    begun: BegunStatement,
    write: BegunWrite,
    ended: EndedExpression,
) -> Result<bool, NoMemory>
    ensures { IfOk result (λ goes. leads_to goes at.new
        ≡ need_closed code at.old.depth (stack_of at.old.frames)
        (begun_statement_of begun) (area_value write.width (measured_of write.pointer)) ended.value
        (kind.Fixed ended.word)) }
{
    let EndedExpression { value, word } = ended;
    let Fixed::Close = word else {
        drop(value);
        return Ok(false);
    };
    let BegunWrite { width, pointer } = write;
    let value = box_expression(alloc, value)?;
    at.close(
        alloc,
        begun,
        RawStmtKind::AreaWrite(width, pointer.tree, value.tree),
    )
}

/// The test of an arm of an IF ends.
fn end_if_test(
    alloc: Global,
    at: &mut BodyState,
    begun: BegunStatement,
    arms: List<RawArm>,
    ended: EndedExpression,
) -> Result<bool, NoMemory>
    ensures { IfOk result (λ goes. leads_to goes at.new
        ≡ need_closed code at.old.depth (stack_of at.old.frames)
        (begun_statement_of begun) (test arms) ended.value (kind.Fixed ended.word)) }
{
    let EndedExpression { value, word } = ended;
    let Fixed::Then = word else {
        drop(value);
        return Ok(false);
    };
    let test = box_expression(alloc, value)?;
    at.enter(
        alloc,
        begun,
        OuterStatement::Choosing(BegunIfArm { arms, test }),
    )?;
    Ok(true)
}

/// The selector of a CASE ends.
fn end_selector(
    alloc: Global,
    at: &mut BodyState,
    begun: BegunStatement,
    ended: EndedExpression,
) -> Result<bool, NoMemory>
    ensures { IfOk result (λ goes. leads_to goes at.new
        ≡ need_closed code at.old.depth (stack_of at.old.frames)
        (begun_statement_of begun) selector ended.value (kind.Fixed ended.word)) }
{
    let EndedExpression { value, word } = ended;
    let Fixed::Of = word else {
        drop(value);
        return Ok(false);
    };
    let cases = Cases {
        selector: box_expression(alloc, value)?,
        arms: List::new(alloc),
    };
    at.go_part(begun, Part::FirstLabel(Boxed::new(alloc, cases)?));
    Ok(true)
}

/// The test of a WHILE ends.
fn loop_tested(
    alloc: Global,
    at: &mut BodyState,
    begun: BegunStatement,
    ended: EndedExpression,
) -> Result<bool, NoMemory>
    ensures { IfOk result (λ goes. leads_to goes at.new
        ≡ need_closed code at.old.depth (stack_of at.old.frames)
        (begun_statement_of begun) loop_test ended.value (kind.Fixed ended.word)) }
{
    let EndedExpression { value, word } = ended;
    let Fixed::Do = word else {
        drop(value);
        return Ok(false);
    };
    let value = box_expression(alloc, value)?;
    at.enter(alloc, begun, OuterStatement::Looping(value))?;
    Ok(true)
}

/// The expression that a statement needs ends.
pub fn need_closed(
    alloc: Global,
    at: &mut BodyState,
    begun: BegunStatement,
    need: Need,
    ended: EndedExpression,
) -> Result<bool, NoMemory>
    ensures { IfOk result (λ goes. leads_to goes at.new
        ≡ need_closed code at.old.depth (stack_of at.old.frames)
        (begun_statement_of begun) (need_of need) ended.value (kind.Fixed ended.word)) }
{
    match need {
        Need::ToVar(var) => end_assignment(at, begun, var, ended),
        Need::ToArea(width) => pointer_closed(alloc, at, begun, width, ended),
        Need::AreaValue(write) => end_area_write(alloc, at, begun, write, ended),
        Need::Test(arms) => end_if_test(alloc, at, begun, arms, ended),
        Need::Selector => end_selector(alloc, at, begun, ended),
        Need::LoopTest => loop_tested(alloc, at, begun, ended),
    }
}
