//! Statements: what they are in the tree, and the rules that are broken in them.
ghost use Rattle.std.specs.Prelude.{◌≡◌, ◌++◌, map, IfOk, OnOk, option_map};
ghost use Rattle.st_rules.specs.Expressions.{expression};
ghost use Rattle.st_rules.specs.Judged.{AreJudged, IsJudged, breaks_in, found_in};
ghost use Rattle.st_rules.specs.Statements.{action, area_write_of, arm, arm_of, arms_on, assignment_of, case_arm, case_arms_on, case_of, have_type, label_breaks, selector, selector_of, statement, statements, test, test_of, type_of_selector, while_of};
ghost use Rattle.st_statement_types.specs.inner.Operands.{typed_of};

use crate::expression::{Context, Operand, expression, operand_of, variable_on};
use crate::invocation::invocation;
use s7_base::{Break, Line, List, NoMemory, Reason, Width, note};
use st_names::lists::keep;
use st_names::scope::NameScope;
use st_names::variable::TypedVar;
use st_rules::expression::Typed;
use st_tree::{
    Arm, CaseArm, Expr, RawArm, RawCaseArm, RawExpr, RawStmt, RawStmtKind, StType, Stmt,
    is_selector, is_type, type_of_width,
};
use std::alloc::Global;

/// A CASE whose ELSE is still to be judged.
#[derive(Drop)]
struct BegunCase {
    selector: Option<Typed>,
    arms: List<CaseArm>,
}

fn assignment_of(
    line: Line,
    target: Option<TypedVar>,
    value: Option<Typed>,
    breaks: &mut List<Break>,
) -> Result<Option<Stmt>, NoMemory>
    ensures { IsJudged result breaks.old breaks.new (assignment_of line target value) }
{
    let Some(value) = value else {
        return Ok(None);
    };
    let Some(target) = target else {
        drop(value);
        return Ok(None);
    };
    if !is_type(target.ty, value.ty) {
        drop(value);
        note(breaks, line, Reason::TypeMismatch)?;
        return Ok(None);
    }
    Ok(Some(Stmt::Assign(target.var, value.tree)))
}

fn area_write_of(
    line: Line,
    width: Width,
    pointer: Option<Operand>,
    value: Option<Operand>,
    breaks: &mut List<Break>,
) -> Result<Option<Stmt>, NoMemory>
    ensures { IsJudged result breaks.old breaks.new
        (area_write_of line width (option_map typed_of pointer) (option_map typed_of value)) }
{
    let Some(pointer) = pointer else {
        return Ok(None);
    };
    let Some(value) = value else {
        return Ok(None);
    };
    if is_type(pointer.ty, StType::Dword) && is_type(value.ty, type_of_width(width)) {
        Ok(Some(Stmt::AreaWrite(width, pointer.tree, value.tree)))
    } else {
        note(breaks, line, Reason::TypeMismatch)?;
        Ok(None)
    }
}

fn test_of(
    line: Line,
    value: Option<Typed>,
    breaks: &mut List<Break>,
) -> Result<Option<Expr>, NoMemory>
    ensures { IsJudged result breaks.old breaks.new (test_of line value) }
{
    let Some(value) = value else {
        return Ok(None);
    };
    if !is_type(value.ty, StType::Bool) {
        drop(value);
        note(breaks, line, Reason::TypeMismatch)?;
        return Ok(None);
    }
    Ok(Some(value.tree))
}

fn test(at: Context<'_>, raw: &RawExpr, breaks: &mut List<Break>) -> Result<Option<Expr>, NoMemory>
    ensures { IsJudged result breaks.old breaks.new (test at.entry.scope.now at.entry.line raw.now) }
{
    let value = expression(at, raw, breaks)?;
    test_of(at.line, value, breaks)
}

fn selector_of(
    line: Line,
    value: Option<Typed>,
    breaks: &mut List<Break>,
) -> Result<Option<Typed>, NoMemory>
    ensures { IsJudged result breaks.old breaks.new (selector_of line value) }
{
    let Some(value) = value else {
        return Ok(None);
    };
    if !is_selector(value.ty) {
        drop(value);
        note(breaks, line, Reason::TypeMismatch)?;
        return Ok(None);
    }
    Ok(Some(value))
}

fn selector(
    at: Context<'_>,
    raw: &RawExpr,
    breaks: &mut List<Break>,
) -> Result<Option<Typed>, NoMemory>
    ensures { IsJudged result breaks.old breaks.new (selector at.entry.scope.now at.entry.line raw.now) }
{
    let value = expression(at, raw, breaks)?;
    selector_of(at.line, value, breaks)
}

fn type_of_selector(selector: &Option<Typed>) -> Option<StType>
    ensures { result ≡ type_of_selector selector.now }
{
    match selector {
        Some(value) => Some(value.ty),
        None => None,
    }
}

fn have_type(ty: StType, labels: &[(StType, i64)]) -> bool
    ensures { result ≡ have_type ty labels.now }
{
    labels.iter().all(|label| is_type(label.0, ty))
}

fn judge_labels(
    line: Line,
    selector: Option<StType>,
    labels: &[(StType, i64)],
    breaks: &mut List<Break>,
) -> Result<(), NoMemory>
    ensures { OnOk result (breaks.new ≡ breaks.old ++ label_breaks line selector labels.now) }
{
    match selector {
        None => Ok(()),
        Some(ty) => {
            if have_type(ty, labels) {
                Ok(())
            } else {
                note(breaks, line, Reason::TypeMismatch)
            }
        }
    }
}

fn values_of(alloc: Global, labels: &[(StType, i64)]) -> Result<List<i64>, NoMemory>
    ensures { IfOk result (λ values. values ≡ map (λ label. label.1) labels.now) }
{
    let mut values = List::new(alloc);
    for label in labels {
        values.push(label.1)?;
    }
    Ok(values)
}

fn arm_of(test: Option<Expr>, body: List<Stmt>) -> Option<Arm>
    ensures { result ≡ arm_of test body }
{
    match test {
        Some(test) => Some(Arm { test, body }),
        None => None,
    }
}

fn while_of(test: Option<Expr>, body: List<Stmt>) -> Option<Stmt>
    ensures { result ≡ while_of test body }
{
    match test {
        Some(test) => Some(Stmt::While(test, body)),
        None => None,
    }
}

fn case_of(selector: Option<Typed>, arms: List<CaseArm>, other: List<Stmt>) -> Option<Stmt>
    ensures { result ≡ case_of selector arms other }
{
    match selector {
        Some(selector) => Some(Stmt::Case(selector.tree, arms, other)),
        None => None,
    }
}

#[cycle(judge)]
fn arm(at: Context<'_>, raw: &RawArm, breaks: &mut List<Break>) -> Result<Option<Arm>, NoMemory>
    ensures { IsJudged result breaks.old breaks.new (arm at.entry.scope.now raw.now at.entry.line) }
{
    let test = test(at, &raw.test, breaks)?;
    let Ok(body) = statements(at.alloc, at.scope, raw.body.as_slice(), breaks) else {
        drop(test);
        return Err(NoMemory);
    };
    Ok(arm_of(test, body))
}

#[cycle(judge)]
fn arms(at: Context<'_>, raws: &[RawArm], breaks: &mut List<Break>) -> Result<List<Arm>, NoMemory>
    ensures { AreJudged result breaks.old breaks.new (arms_on at.entry.line (map (arm at.entry.scope.now) raws.now)) }
{
    let mut arms = List::new(at.alloc);
    for raw in raws {
        let found = arm(at, raw, breaks)?;
        keep(&mut arms, found)?;
    }
    Ok(arms)
}

#[cycle(judge)]
fn case_arm(
    at: Context<'_>,
    selector: Option<StType>,
    raw: &RawCaseArm,
    breaks: &mut List<Break>,
) -> Result<Option<CaseArm>, NoMemory>
    ensures { IsJudged result breaks.old breaks.new (case_arm at.entry.scope.now raw.now at.entry.line selector) }
{
    judge_labels(at.line, selector, raw.labels.as_slice(), breaks)?;
    let labels = values_of(at.alloc, raw.labels.as_slice())?;
    let body = statements(at.alloc, at.scope, raw.body.as_slice(), breaks)?;
    Ok(Some(CaseArm { labels, body }))
}

#[cycle(judge)]
fn case_arms(
    at: Context<'_>,
    selector: Option<StType>,
    raws: &[RawCaseArm],
    breaks: &mut List<Break>,
) -> Result<List<CaseArm>, NoMemory>
    ensures { AreJudged result breaks.old breaks.new
        (case_arms_on at.entry.line selector (map (case_arm at.entry.scope.now) raws.now)) }
{
    let mut arms = List::new(at.alloc);
    for raw in raws {
        let found = case_arm(at, selector, raw, breaks)?;
        keep(&mut arms, found)?;
    }
    Ok(arms)
}

/// A list of statements; notes the rules that are broken in them.
#[cycle(judge)]
pub fn statements(
    alloc: Global,
    scope: &NameScope,
    raws: &[RawStmt],
    breaks: &mut List<Break>,
) -> Result<List<Stmt>, NoMemory>
    ensures { AreJudged result breaks.old breaks.new (statements scope.now raws.now) }
{
    let mut body = List::new(alloc);
    for raw in raws {
        let found = statement(alloc, scope, raw, breaks)?;
        keep(&mut body, found)?;
    }
    Ok(body)
}

#[cycle(judge)]
fn statement(
    alloc: Global,
    scope: &NameScope,
    raw: &RawStmt,
    breaks: &mut List<Break>,
) -> Result<Option<Stmt>, NoMemory>
    ensures { IsJudged result breaks.old breaks.new (statement scope.now raw.now) }
{
    let line = raw.line;
    action(Context { alloc, scope, line }, &raw.kind, breaks)
}

/// A write through a pointer, after the pointer.
fn area_write_with(
    at: Context<'_>,
    width: Width,
    pointer: Option<Operand>,
    raw: &RawExpr,
    breaks: &mut List<Break>,
) -> Result<Option<Stmt>, NoMemory>
    ensures { let operand = expression at.entry.scope.now at.entry.line raw.now in
        IsJudged result (breaks.old ++ operand.breaks) breaks.new
        (area_write_of at.entry.line width (option_map typed_of pointer) operand.found) }
{
    let value = operand_of(at, raw, breaks)?;
    area_write_of(at.line, width, pointer, value, breaks)
}

/// A WHILE after its test.
#[cycle(judge)]
fn while_with(
    at: Context<'_>,
    test: Option<Expr>,
    raws: &[RawStmt],
    breaks: &mut List<Break>,
) -> Result<Option<Stmt>, NoMemory>
    ensures found { IfOk result (λ found. found ≡ while_of test (found_in (statements at.entry.scope.now raws.now))) }
    ensures breaks { OnOk result (breaks.new ≡ breaks.old ++ breaks_in (statements at.entry.scope.now raws.now)) }
{
    let Ok(body) = statements(at.alloc, at.scope, raws, breaks) else {
        drop(test);
        return Err(NoMemory);
    };
    Ok(while_of(test, body))
}

/// A CASE up to its ELSE, after its selector.
#[cycle(judge)]
fn case_begun(
    at: Context<'_>,
    selector: Option<Typed>,
    raws: &[RawCaseArm],
    breaks: &mut List<Break>,
) -> Result<BegunCase, NoMemory>
    ensures selector { IfOk result (λ begun. begun.selector ≡ selector) }
    ensures arms { IfOk result (λ begun. begun.arms ≡ found_in (case_arms_on at.entry.line
        (type_of_selector selector) (map (case_arm at.entry.scope.now) raws.now))) }
    ensures breaks { OnOk result (breaks.new ≡ breaks.old ++ breaks_in (case_arms_on at.entry.line
        (type_of_selector selector) (map (case_arm at.entry.scope.now) raws.now))) }
{
    let ty = type_of_selector(&selector);
    let Ok(arms) = case_arms(at, ty, raws, breaks) else {
        drop(selector);
        return Err(NoMemory);
    };
    Ok(BegunCase { selector, arms })
}

/// A CASE after its arms.
#[cycle(judge)]
fn case_with(
    at: Context<'_>,
    begun: BegunCase,
    raws: &[RawStmt],
    breaks: &mut List<Break>,
) -> Result<Option<Stmt>, NoMemory>
    ensures found { IfOk result (λ found. found
        ≡ case_of begun.selector begun.arms (found_in (statements at.entry.scope.now raws.now))) }
    ensures breaks { OnOk result (breaks.new ≡ breaks.old ++ breaks_in (statements at.entry.scope.now raws.now)) }
{
    let Ok(other) = statements(at.alloc, at.scope, raws, breaks) else {
        drop(begun);
        return Err(NoMemory);
    };
    Ok(case_of(begun.selector, begun.arms, other))
}

/// What a statement does.
#[cycle(judge)]
fn action(
    at: Context<'_>,
    raw: &RawStmtKind,
    breaks: &mut List<Break>,
) -> Result<Option<Stmt>, NoMemory>
    ensures { IsJudged result breaks.old breaks.new (action at.entry.scope.now raw.now at.entry.line) }
{
    match raw {
        RawStmtKind::Assign(target, value) => {
            let target = variable_on(at, target, breaks)?;
            let value = expression(at, value, breaks)?;
            assignment_of(at.line, target, value, breaks)
        }
        RawStmtKind::AreaWrite(width, pointer, value) => {
            let pointer = operand_of(at, pointer.get(), breaks)?;
            area_write_with(at, *width, pointer, value.get(), breaks)
        }
        RawStmtKind::Invoke(name, actuals) => invocation(at, name, actuals.as_slice(), breaks),
        RawStmtKind::If(raws, other) => {
            let arms = arms(at, raws.as_slice(), breaks)?;
            let other = statements(at.alloc, at.scope, other.as_slice(), breaks)?;
            Ok(Some(Stmt::If(arms, other)))
        }
        RawStmtKind::Case(value, raws, other) => {
            let selector = selector(at, value, breaks)?;
            let begun = case_begun(at, selector, raws.as_slice(), breaks)?;
            case_with(at, begun, other.as_slice(), breaks)
        }
        RawStmtKind::While(value, raws) => {
            let test = test(at, value, breaks)?;
            while_with(at, test, raws.as_slice(), breaks)
        }
        RawStmtKind::Exit => Ok(Some(Stmt::Exit)),
        RawStmtKind::Continue => Ok(Some(Stmt::Continue)),
        RawStmtKind::Return => Ok(Some(Stmt::Return)),
    }
}
