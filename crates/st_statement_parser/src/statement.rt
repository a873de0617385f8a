//! Steps of the parser in statements.
ghost use Rattle.std.specs.Prelude.{◌≡◌, [], ◌∷◌, ◌++◌, Some, IfOk};
ghost use Rattle.std.specs.List.{list_any};
ghost use Rattle.st_grammar.specs.Grammar.{may_jump, case_of, label_tree};
ghost use Rattle.st_grammar.specs.inner.Machine.{code, add_arm, choosing, otherwise, looping, selecting, otherwise_case, closing, of_cases_else, write_open, first_formal, next_formal, becoming, giving, given, labelled};
ghost use Rattle.st_grammar.specs.inner.Steps.{shallower, body_state, is_loop, in_loop, body_closed, in_body, at_lead, at_statement, at_target, at_label, at_call, at_part, at_closing, step_at};
ghost use Rattle.st_grammar.specs.declared.kind.GrammarKind.TheVariants as kind;
ghost use Rattle.st_grammar.specs.declared.kind.Lead.TheVariants as lead;
ghost use Rattle.st_statement_parser.specs.inner.BodyStates.{begun_statement_of, frame_of, leads_to, measured_of, outer_statement_of, part_of, place_of, stack_of};

use crate::body_state::{
    BegunActual, BegunCaseArm, BegunIfArm, BegunStatement, BodyState, Call, Cases, Frame, Need,
    OuterStatement, Part, Place,
};
use crate::expression::{BoxedExpression, is_value, label_of};
use crate::operand::{at_opening, at_operand, at_operator};
use s7_base::{Boxed, Line, List, NoMemory, Width};
use st_grammar::{Fixed, GrammarKind, Jump, Lead, Literal};
use st_tree::{RawArm, RawCaseArm, RawStmt, RawStmtKind, RawVar};
use std::alloc::Global;
use std::mem::replace;

fn is_loop(frame: &Frame) -> bool
    ensures { result ≡ is_loop code (frame_of frame.now) }
{
    matches!(frame, Frame::Within(_, OuterStatement::Looping(_)))
}

/// Whether a WHILE is among the frames.
fn has_loop(frames: &[Frame]) -> bool
    ensures { result ≡ list_any (λ frame. is_loop code (frame_of frame)) frames.now }
{
    frames.iter().any(|frame| is_loop(frame))
}

/// Whether a WHILE is open. At a statement no more frames are open than levels of nesting.
fn in_loop(frames: &[Frame]) -> bool
    ensures { result ≡ in_loop code (stack_of frames.now) }
{
    has_loop(frames)
}

fn may_jump(inside: bool, jump: Jump) -> bool
    ensures { result ≡ may_jump inside jump }
{
    match jump {
        Jump::Exit | Jump::Continue => inside,
        Jump::Return => true,
    }
}

/// Statements inside another one that have ended, and the word or the sign at which they did.
#[derive(Drop)]
struct EndedStatements {
    body: List<RawStmt>,
    word: Fixed,
}

/// The arms of an IF with one more.
fn with_arm(arm: BegunIfArm, body: List<RawStmt>) -> Result<List<RawArm>, NoMemory>
    ensures { IfOk result (λ more. more ≡ add_arm code arm.arms (measured_of arm.test) body) }
{
    let BegunIfArm { mut arms, test } = arm;
    let test = test.tree.into_inner();
    arms.push(RawArm { test, body })?;
    Ok(arms)
}

/// The statements of an arm of an IF end.
fn choosing_closed(
    alloc: Global,
    at: &mut BodyState,
    begun: BegunStatement,
    arm: BegunIfArm,
    ended: EndedStatements,
) -> Result<bool, NoMemory>
    ensures { IfOk result (λ goes. leads_to goes at.new
        ≡ body_closed code at.old.depth (stack_of at.old.frames)
        (begun_statement_of begun) (choosing arm.arms (measured_of arm.test)) ended.body (kind.Fixed ended.word)) }
{
    let EndedStatements { body, word } = ended;
    let arms = with_arm(arm, body)?;
    match word {
        Fixed::Elsif => at.wait(begun, Need::Test(arms))?,
        Fixed::Else => at.enter(alloc, begun, OuterStatement::Otherwise(arms))?,
        Fixed::EndIf => {
            return at.close(alloc, begun, RawStmtKind::If(arms, List::new(alloc)));
        }
        _ => return Ok(false),
    }
    Ok(true)
}

/// A label of an arm of a CASE.
fn at_label(
    at: &mut BodyState,
    begun: BegunStatement,
    mut arm: BegunCaseArm,
    literal: Literal,
) -> Result<bool, NoMemory>
    ensures { IfOk result (λ goes. leads_to goes at.new
        ≡ at_label code at.old.depth (stack_of at.old.frames)
        (begun_statement_of begun) (measured_of arm.cases.selector) arm.cases.arms
        (λ c. arm.labels ++ label_tree c ∷ []) (kind.Literal literal)) }
{
    if !is_value(literal) {
        return Ok(false);
    }
    arm.labels.push(label_of(literal))?;
    at.go_part(begun, Part::Labelled(arm));
    Ok(true)
}

/// A CASE with one more arm.
fn with_case(
    alloc: Global,
    arm: BegunCaseArm,
    body: List<RawStmt>,
) -> Result<Boxed<Cases>, NoMemory>
    ensures { IfOk result (λ more. more
        ≡ record { selector = arm.cases.selector; arms = arm.cases.arms ++ case_of arm.labels body ∷ [] }) }
{
    let BegunCaseArm { cases, labels } = arm;
    let Cases { selector, mut arms } = cases.into_inner();
    arms.push(RawCaseArm { labels, body })?;
    Boxed::new(alloc, Cases { selector, arms })
}

/// The END_CASE of a CASE.
fn case_closed(
    alloc: Global,
    at: &mut BodyState,
    begun: BegunStatement,
    cases: Boxed<Cases>,
    body: List<RawStmt>,
) -> Result<bool, NoMemory>
    ensures { IfOk result (λ goes. leads_to goes at.new
        ≡ Some (body_state code (shallower at.old.depth) (stack_of at.old.frames)
        (closing begun.before (of_cases_else code begun.line (measured_of cases.selector) cases.arms body)))) }
{
    let Cases { selector, arms } = cases.into_inner();
    let selector = selector.tree.into_inner();
    at.close(alloc, begun, RawStmtKind::Case(selector, arms, body))
}

/// The statements of an arm of a CASE end at a label, that of the next arm.
fn arm_closed(
    alloc: Global,
    at: &mut BodyState,
    begun: BegunStatement,
    arm: BegunCaseArm,
    body: List<RawStmt>,
    literal: Literal,
) -> Result<bool, NoMemory>
    ensures { IfOk result (λ goes. leads_to goes at.new
        ≡ body_closed code at.old.depth (stack_of at.old.frames)
        (begun_statement_of begun) (selecting (measured_of arm.cases.selector) arm.cases.arms arm.labels)
        body (kind.Literal literal)) }
{
    let cases = with_case(alloc, arm, body)?;
    let labels = List::new(alloc);
    at_label(at, begun, BegunCaseArm { cases, labels }, literal)
}

/// The statements of an arm of a CASE end at a word.
fn selecting_closed(
    alloc: Global,
    at: &mut BodyState,
    begun: BegunStatement,
    arm: BegunCaseArm,
    ended: EndedStatements,
) -> Result<bool, NoMemory>
    ensures { IfOk result (λ goes. leads_to goes at.new
        ≡ body_closed code at.old.depth (stack_of at.old.frames)
        (begun_statement_of begun) (selecting (measured_of arm.cases.selector) arm.cases.arms arm.labels)
        ended.body (kind.Fixed ended.word)) }
{
    let EndedStatements { body, word } = ended;
    let cases = with_case(alloc, arm, body)?;
    match word {
        Fixed::Else => at.enter(alloc, begun, OuterStatement::OtherwiseCase(cases))?,
        Fixed::EndCase => {
            return case_closed(alloc, at, begun, cases, List::new(alloc));
        }
        _ => return Ok(false),
    }
    Ok(true)
}

/// The statements after the ELSE of an IF end.
fn otherwise_closed(
    alloc: Global,
    at: &mut BodyState,
    begun: BegunStatement,
    arms: List<RawArm>,
    ended: EndedStatements,
) -> Result<bool, NoMemory>
    ensures { IfOk result (λ goes. leads_to goes at.new
        ≡ body_closed code at.old.depth (stack_of at.old.frames)
        (begun_statement_of begun) (otherwise arms) ended.body (kind.Fixed ended.word)) }
{
    let EndedStatements { body, word } = ended;
    let Fixed::EndIf = word else {
        return Ok(false);
    };
    at.close(alloc, begun, RawStmtKind::If(arms, body))
}

/// The statements of a WHILE end.
fn looping_closed(
    alloc: Global,
    at: &mut BodyState,
    begun: BegunStatement,
    test: BoxedExpression,
    ended: EndedStatements,
) -> Result<bool, NoMemory>
    ensures { IfOk result (λ goes. leads_to goes at.new
        ≡ body_closed code at.old.depth (stack_of at.old.frames)
        (begun_statement_of begun) (looping (measured_of test)) ended.body (kind.Fixed ended.word)) }
{
    let EndedStatements { body, word } = ended;
    let Fixed::EndWhile = word else {
        return Ok(false);
    };
    at.close(
        alloc,
        begun,
        RawStmtKind::While(test.tree.into_inner(), body),
    )
}

/// The statements after the ELSE of a CASE end.
fn otherwise_case_closed(
    alloc: Global,
    at: &mut BodyState,
    begun: BegunStatement,
    cases: Boxed<Cases>,
    ended: EndedStatements,
) -> Result<bool, NoMemory>
    ensures { IfOk result (λ goes. leads_to goes at.new
        ≡ body_closed code at.old.depth (stack_of at.old.frames)
        (begun_statement_of begun) (otherwise_case (measured_of cases.selector) cases.arms) ended.body (kind.Fixed ended.word)) }
{
    let EndedStatements { body, word } = ended;
    let Fixed::EndCase = word else {
        return Ok(false);
    };
    case_closed(alloc, at, begun, cases, body)
}

/// Statements inside another one end at a word.
fn body_ended(
    alloc: Global,
    at: &mut BodyState,
    begun: BegunStatement,
    outer: OuterStatement,
    ended: EndedStatements,
) -> Result<bool, NoMemory>
    ensures { IfOk result (λ goes. leads_to goes at.new
        ≡ body_closed code at.old.depth (stack_of at.old.frames)
        (begun_statement_of begun) (outer_statement_of outer) ended.body (kind.Fixed ended.word)) }
{
    match outer {
        OuterStatement::Choosing(arm) => choosing_closed(alloc, at, begun, arm, ended),
        OuterStatement::Otherwise(arms) => otherwise_closed(alloc, at, begun, arms, ended),
        OuterStatement::Looping(test) => looping_closed(alloc, at, begun, test, ended),
        OuterStatement::Selecting(arm) => selecting_closed(alloc, at, begun, arm, ended),
        OuterStatement::OtherwiseCase(cases) => otherwise_case_closed(
            alloc, at, begun, cases, ended,
        ),
    }
}

/// Statements inside another one end. A label ends those of an arm of a CASE alone.
fn body_closed(
    alloc: Global,
    at: &mut BodyState,
    begun: BegunStatement,
    outer: OuterStatement,
    body: List<RawStmt>,
    kind: GrammarKind,
) -> Result<bool, NoMemory>
    ensures { IfOk result (λ goes. leads_to goes at.new
        ≡ body_closed code at.old.depth (stack_of at.old.frames)
        (begun_statement_of begun) (outer_statement_of outer) body kind) }
{
    match kind {
        GrammarKind::Fixed(word) => body_ended(
            alloc,
            at,
            begun,
            outer,
            EndedStatements { body, word },
        ),
        GrammarKind::Literal(literal) => match outer {
            OuterStatement::Selecting(arm) => arm_closed(alloc, at, begun, arm, body, literal),
            _ => Ok(false),
        },
        _ => Ok(false),
    }
}

/// A token that begins no statement ends those of the innermost open one, or cannot follow.
fn in_body(
    alloc: Global,
    at: &mut BodyState,
    body: List<RawStmt>,
    kind: GrammarKind,
) -> Result<bool, NoMemory>
    ensures { IfOk result (λ goes. leads_to goes at.new
        ≡ in_body code at.old.depth (stack_of at.old.frames) body kind) }
{
    match at.frames.pop() {
        Some(Frame::Within(begun, outer)) => body_closed(alloc, at, begun, outer, body, kind),
        other => {
            drop(other);
            Ok(false)
        }
    }
}

/// EXIT, CONTINUE or RETURN.
fn at_jump(
    alloc: Global,
    at: &mut BodyState,
    before: List<RawStmt>,
    jump: Jump,
    line: Line,
) -> Result<bool, NoMemory>
    ensures { IfOk result (λ goes. leads_to goes at.new
        ≡ at_lead code at.old.depth (stack_of at.old.frames) before (lead.Jump jump) line) }
{
    if !may_jump(in_loop(at.frames.as_slice()), jump) {
        return Ok(false);
    }
    let kind = match jump {
        Jump::Exit => RawStmtKind::Exit,
        Jump::Continue => RawStmtKind::Continue,
        Jump::Return => RawStmtKind::Return,
    };
    at.go_closing(alloc, before, line, kind)?;
    Ok(true)
}

/// A word that begins a statement.
fn at_lead(
    alloc: Global,
    at: &mut BodyState,
    before: List<RawStmt>,
    lead: Lead,
    line: Line,
) -> Result<bool, NoMemory>
    ensures { IfOk result (λ goes. leads_to goes at.new
        ≡ at_lead code at.old.depth (stack_of at.old.frames) before lead line) }
{
    let need = match lead {
        Lead::If => Need::Test(List::new(alloc)),
        Lead::Case => Need::Selector,
        Lead::While => Need::LoopTest,
        Lead::Jump(jump) => return at_jump(alloc, at, before, jump, line),
        Lead::AreaWrite(width) => {
            at.go_part(BegunStatement { before, line }, Part::WriteOpen(width));
            return Ok(true);
        }
        Lead::Program | Lead::Function => return Ok(false),
    };
    at.wait(BegunStatement { before, line }, need)?;
    at.deepen()?;
    Ok(true)
}

/// A token where a statement may begin or statements end.
fn at_statement(
    alloc: Global,
    at: &mut BodyState,
    before: List<RawStmt>,
    kind: GrammarKind,
) -> Result<bool, NoMemory>
    ensures { IfOk result (λ goes. leads_to goes at.new
        ≡ at_statement code at.old.depth (stack_of at.old.frames) before kind) }
{
    match kind {
        GrammarKind::Variable(var, line) => {
            at.go_part(BegunStatement { before, line }, Part::Target(var));
            Ok(true)
        }
        GrammarKind::Lead(lead, line) => at_lead(alloc, at, before, lead, line),
        GrammarKind::Fixed(Fixed::Semicolon) => {
            at.go_statement(before);
            Ok(true)
        }
        other => in_body(alloc, at, before, other),
    }
}

/// A token after a variable at the beginning of a statement.
fn at_target(
    at: &mut BodyState,
    begun: BegunStatement,
    var: RawVar,
    kind: GrammarKind,
) -> Result<bool, NoMemory>
    ensures { IfOk result (λ goes. leads_to goes at.new
        ≡ at_target code at.old.depth (stack_of at.old.frames) (begun_statement_of begun) var kind) }
{
    match kind {
        GrammarKind::Fixed(Fixed::Becomes) => at.wait(begun, Need::ToVar(var))?,
        GrammarKind::Fixed(Fixed::Open) => {
            let RawVar::Name(name) = var else {
                return Ok(false);
            };
            at.deepen()?;
            at.go_part(begun, Part::FirstFormal(name));
        }
        _ => return Ok(false),
    }
    Ok(true)
}

/// A name of a formal.
fn at_formal(
    at: &mut BodyState,
    begun: BegunStatement,
    call: Boxed<Call>,
    kind: GrammarKind,
) -> Result<bool, NoMemory>
    ensures { IfOk result (λ goes. leads_to goes at.new
        ≡ at_call code at.old.depth (stack_of at.old.frames)
        (begun_statement_of begun) (next_formal call.name call.actuals) kind) }
{
    match kind {
        GrammarKind::Variable(RawVar::Name(formal), _) => {
            at.go_part(begun, Part::Becoming(BegunActual { call, formal }));
            Ok(true)
        }
        _ => Ok(false),
    }
}

/// A call without actuals.
fn call_without_actuals(alloc: Global, name: List<u8>) -> Result<Boxed<Call>, NoMemory>
    ensures { IfOk result (λ call. call ≡ record { name = name; actuals = [] }) }
{
    let actuals = List::new(alloc);
    Boxed::new(alloc, Call { name, actuals })
}

/// A token after the bracket of a call.
fn at_first_formal(
    alloc: Global,
    at: &mut BodyState,
    begun: BegunStatement,
    name: List<u8>,
    kind: GrammarKind,
) -> Result<bool, NoMemory>
    ensures { IfOk result (λ goes. leads_to goes at.new
        ≡ at_call code at.old.depth (stack_of at.old.frames) (begun_statement_of begun) (first_formal name) kind) }
{
    match kind {
        GrammarKind::Fixed(Fixed::Close) => {
            at.close(alloc, begun, RawStmtKind::Invoke(name, List::new(alloc)))
        }
        other => at_formal(at, begun, call_without_actuals(alloc, name)?, other),
    }
}

/// The `:=` after the name of a formal.
fn at_becoming(
    at: &mut BodyState,
    begun: BegunStatement,
    actual: BegunActual,
    kind: GrammarKind,
) -> Result<bool, NoMemory>
    ensures { IfOk result (λ goes. leads_to goes at.new
        ≡ at_call code at.old.depth (stack_of at.old.frames)
        (begun_statement_of begun) (becoming actual.call.name actual.call.actuals actual.formal) kind) }
{
    match kind {
        GrammarKind::Fixed(Fixed::Becomes) => {
            at.go_part(begun, Part::Giving(actual));
            Ok(true)
        }
        _ => Ok(false),
    }
}

/// A call with one more actual.
fn with_actual(alloc: Global, actual: BegunActual, var: RawVar) -> Result<Boxed<Call>, NoMemory>
    ensures { IfOk result (λ more. more
        ≡ record { name = actual.call.name; actuals = actual.call.actuals ++ (actual.formal, var) ∷ [] }) }
{
    let BegunActual { call, formal } = actual;
    let Call { name, mut actuals } = call.into_inner();
    actuals.push((formal, var))?;
    Boxed::new(alloc, Call { name, actuals })
}

/// A variable for a formal.
fn at_actual(
    alloc: Global,
    at: &mut BodyState,
    begun: BegunStatement,
    actual: BegunActual,
    kind: GrammarKind,
) -> Result<bool, NoMemory>
    ensures { IfOk result (λ goes. leads_to goes at.new
        ≡ at_call code at.old.depth (stack_of at.old.frames)
        (begun_statement_of begun) (giving actual.call.name actual.call.actuals actual.formal) kind) }
{
    let GrammarKind::Variable(var, _) = kind else {
        return Ok(false);
    };
    let call = with_actual(alloc, actual, var)?;
    at.go_part(begun, Part::Given(call));
    Ok(true)
}

/// A token after an actual of a call.
fn at_given(
    alloc: Global,
    at: &mut BodyState,
    begun: BegunStatement,
    call: Boxed<Call>,
    kind: GrammarKind,
) -> Result<bool, NoMemory>
    ensures { IfOk result (λ goes. leads_to goes at.new
        ≡ at_call code at.old.depth (stack_of at.old.frames)
        (begun_statement_of begun) (given call.name call.actuals) kind) }
{
    match kind {
        GrammarKind::Fixed(Fixed::Comma) => {
            at.go_part(begun, Part::NextFormal(call));
            Ok(true)
        }
        GrammarKind::Fixed(Fixed::Close) => {
            let Call { name, actuals } = call.into_inner();
            at.close(alloc, begun, RawStmtKind::Invoke(name, actuals))
        }
        _ => Ok(false),
    }
}

/// A token where a label must come.
fn at_next_label(
    at: &mut BodyState,
    begun: BegunStatement,
    arm: BegunCaseArm,
    kind: GrammarKind,
) -> Result<bool, NoMemory>
    ensures { IfOk result (λ goes. leads_to goes at.new
        ≡ at_label code at.old.depth (stack_of at.old.frames)
        (begun_statement_of begun) (measured_of arm.cases.selector) arm.cases.arms
        (λ c. arm.labels ++ label_tree c ∷ []) kind) }
{
    match kind {
        GrammarKind::Literal(literal) => at_label(at, begun, arm, literal),
        _ => Ok(false),
    }
}

/// A token after a label.
fn at_labelled(
    alloc: Global,
    at: &mut BodyState,
    begun: BegunStatement,
    arm: BegunCaseArm,
    kind: GrammarKind,
) -> Result<bool, NoMemory>
    ensures { IfOk result (λ goes. leads_to goes at.new
        ≡ at_part code at.old.depth (stack_of at.old.frames)
        (begun_statement_of begun) (labelled (measured_of arm.cases.selector) arm.cases.arms arm.labels) kind) }
{
    match kind {
        GrammarKind::Fixed(Fixed::Comma) => at.go_part(begun, Part::NextLabel(arm)),
        GrammarKind::Fixed(Fixed::Colon) => at.enter(alloc, begun, OuterStatement::Selecting(arm))?,
        _ => return Ok(false),
    }
    Ok(true)
}

/// The bracket of an AREA_WRITE.
fn at_write_open(
    at: &mut BodyState,
    begun: BegunStatement,
    width: Width,
    kind: GrammarKind,
) -> Result<bool, NoMemory>
    ensures { IfOk result (λ goes. leads_to goes at.new
        ≡ at_part code at.old.depth (stack_of at.old.frames) (begun_statement_of begun) (write_open width) kind) }
{
    let GrammarKind::Fixed(Fixed::Open) = kind else {
        return Ok(false);
    };
    at.wait(begun, Need::ToArea(width))?;
    at.deepen()?;
    Ok(true)
}

/// A token in a part of a statement that is no expression.
fn at_part(
    alloc: Global,
    at: &mut BodyState,
    begun: BegunStatement,
    part: Part,
    kind: GrammarKind,
) -> Result<bool, NoMemory>
    ensures { IfOk result (λ goes. leads_to goes at.new
        ≡ at_part code at.old.depth (stack_of at.old.frames) (begun_statement_of begun) (part_of part) kind) }
{
    match part {
        Part::Target(var) => at_target(at, begun, var, kind),
        Part::WriteOpen(width) => at_write_open(at, begun, width, kind),
        Part::FirstFormal(name) => at_first_formal(alloc, at, begun, name, kind),
        Part::NextFormal(call) => at_formal(at, begun, call, kind),
        Part::Becoming(actual) => at_becoming(at, begun, actual, kind),
        Part::Giving(actual) => at_actual(alloc, at, begun, actual, kind),
        Part::Given(call) => at_given(alloc, at, begun, call, kind),
        Part::FirstLabel(cases) => {
            let labels = List::new(alloc);
            at_next_label(at, begun, BegunCaseArm { cases, labels }, kind)
        }
        Part::NextLabel(arm) => at_next_label(at, begun, arm, kind),
        Part::Labelled(arm) => at_labelled(alloc, at, begun, arm, kind),
    }
}

/// The `;` of a statement.
fn at_closing(
    at: &mut BodyState,
    mut before: List<RawStmt>,
    statement: Boxed<RawStmt>,
    kind: GrammarKind,
) -> Result<bool, NoMemory>
    ensures { IfOk result (λ goes. leads_to goes at.new
        ≡ at_closing code at.old.depth (stack_of at.old.frames) before statement kind) }
{
    let GrammarKind::Fixed(Fixed::Semicolon) = kind else {
        drop(statement);
        return Ok(false);
    };
    before.push(statement.into_inner())?;
    at.go_statement(before);
    Ok(true)
}

/// One token in statements: whether it can follow, and if it can, the state after it. Where it can't, nothing
/// is said of the state.
pub fn step(alloc: Global, at: &mut BodyState, kind: GrammarKind) -> Result<bool, NoMemory>
    ensures { IfOk result (λ goes. leads_to goes at.new
        ≡ step_at code at.old.depth (stack_of at.old.frames) (place_of at.old.place) kind) }
{
    let place = replace(&mut at.place, Place::Operand);
    match place {
        Place::Statement(before) => at_statement(alloc, at, before, kind),
        Place::Part(begun, part) => at_part(alloc, at, begun, part, kind),
        Place::Closing(before, statement) => at_closing(at, before, statement, kind),
        Place::Operand => at_operand(at, kind),
        Place::Operator(operand) => at_operator(alloc, at, operand, kind),
        Place::Opening(function) => at_opening(at, function, kind),
    }
}
