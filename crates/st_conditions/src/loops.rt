//! WHILE TRUE whose first statement leaves it by EXIT.
ghost use Rattle.std.specs.Prelude.{◌≡◌, ◌++◌, IfOk, OnOk, true};
ghost use Rattle.condition_laws.specs.inner.Rewriting.{arms_lead_out, is_always, is_exit, leads_out, loop_of, otherwise, loop_with_test, loop_by};

use crate::negation::{HIGHEST, has_low_negation, is_low, negation};
use s7_base::{List, NoMemory};
use st_tree::{Arm, Expr, Stmt};
use std::alloc::Global;

/// Whether a test is TRUE.
fn is_always(test: &Expr) -> bool
    ensures { result ≡ is_always test.now }
{
    match test {
        Expr::Literal(_, number) => *number == 1,
        _ => false,
    }
}

/// Whether a body is EXIT alone.
fn is_exit(body: &[Stmt]) -> bool
    ensures { result ≡ is_exit body.now }
{
    match body {
        [only] => matches!(only, Stmt::Exit),
        _ => false,
    }
}

/// Whether an IF leaves its loop in its first arm, or in an ELSE after its only arm, by a test that may be that of a
/// WHILE.
fn arms_lead_out(arms: &[Arm], other: &[Stmt]) -> bool
    ensures { result ≡ arms_lead_out arms.now other.now }
{
    match arms {
        [] => false,
        [arm, ..] => {
            if is_exit(arm.body.as_slice()) {
                has_low_negation(&arm.test)
            } else {
                arms.len() == 1 && is_exit(other) && is_low(&arm.test, HIGHEST)
            }
        }
    }
}

/// Whether the first statement of a loop leaves it so.
fn leads_out(body: &[Stmt]) -> bool
    ensures { result ≡ leads_out body.now }
{
    match body {
        [Stmt::If(arms, other), ..] => arms_lead_out(arms.as_slice(), other.as_slice()),
        _ => false,
    }
}

fn push_all(body: &mut List<Stmt>, more: List<Stmt>) -> Result<(), NoMemory>
    ensures { OnOk result (body.new ≡ body.old ++ more) }
{
    for statement in more.into_vec() {
        body.push(statement)?;
    }
    Ok(())
}

/// What an IF does where its first arm is not met.
fn otherwise(alloc: Global, more: List<Arm>, other: List<Stmt>) -> Result<List<Stmt>, NoMemory>
    ensures { IfOk result (λ body. body ≡ otherwise more other) }
{
    if more.len() == 0 {
        return Ok(other);
    }
    let mut body = List::new(alloc);
    body.push(Stmt::If(more, other))?;
    Ok(body)
}

/// A loop with the test of an arm, by which its first statement leaves it.
fn loop_by(
    alloc: Global,
    arm: Arm,
    more: List<Arm>,
    other: List<Stmt>,
    rest: List<Stmt>,
) -> Result<Stmt, NoMemory>
    ensures { IfOk result (λ new. new ≡ loop_by arm more other rest) }
{
    let Arm { test, body } = arm;
    if is_exit(body.as_slice()) {
        drop(body);
        let mut body = otherwise(alloc, more, other)?;
        push_all(&mut body, rest)?;
        return Ok(Stmt::While(negation(alloc, test)?, body));
    }
    drop(more);
    drop(other);
    let mut body = body;
    push_all(&mut body, rest)?;
    Ok(Stmt::While(test, body))
}

/// A loop with the test by which its first statement leaves it.
fn loop_with_test(alloc: Global, body: List<Stmt>) -> Result<Stmt, NoMemory>
    requires { leads_out body ≡ true }
    ensures { IfOk result (λ new. new ≡ loop_with_test body) }
{
    let mut rest = body.into_vec();
    match rest.remove(0) {
        Stmt::If(arms, other) => {
            let mut more = arms.into_vec();
            let arm = more.remove(0);
            loop_by(
                alloc,
                arm,
                List::from_vec(more),
                other,
                List::from_vec(rest),
            )
        }
        _ => unreachable!(),
    }
}

/// A loop, where there is room with the test by which its first statement leaves it.
pub fn loop_of(alloc: Global, room: u32, test: Expr, body: List<Stmt>) -> Result<Stmt, NoMemory>
    ensures { IfOk result (λ new. new ≡ loop_of room test body) }
{
    if room > 0 && is_always(&test) && leads_out(body.as_slice()) {
        drop(test);
        loop_with_test(alloc, body)
    } else {
        Ok(Stmt::While(test, body))
    }
}
