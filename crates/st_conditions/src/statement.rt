//! Statements, and what is inside them.
ghost use Rattle.std.specs.Prelude.{◌≡◌, IfOk, map};
ghost use Rattle.condition_laws.specs.inner.Rewriting.{at, rewrite, rewrite_arm, rewrite_case};

use crate::choices::choice_of;
use crate::loops::loop_of;
use s7_base::{List, NoMemory};
use st_tree::{Arm, CaseArm, Stmt};
use std::alloc::Global;

#[cycle(rewrite)]
fn if_arms(alloc: Global, arms: List<Arm>, room: u32) -> Result<List<Arm>, NoMemory>
    ensures { IfOk result (λ new. new ≡ at room (map rewrite_arm arms)) }
{
    let mut new = List::new(alloc);
    for arm in arms.into_vec() {
        let Arm { test, body } = arm;
        let body = statements(alloc, body, room)?;
        new.push(Arm { test, body })?;
    }
    Ok(new)
}

#[cycle(rewrite)]
fn case_arms(alloc: Global, arms: List<CaseArm>, room: u32) -> Result<List<CaseArm>, NoMemory>
    ensures { IfOk result (λ new. new ≡ at room (map rewrite_case arms)) }
{
    let mut new = List::new(alloc);
    for arm in arms.into_vec() {
        let CaseArm { labels, body } = arm;
        let body = statements(alloc, body, room)?;
        new.push(CaseArm { labels, body })?;
    }
    Ok(new)
}

#[cycle(rewrite)]
fn statement(alloc: Global, statement: Stmt, room: u32) -> Result<Stmt, NoMemory>
    ensures { IfOk result (λ new. new ≡ rewrite statement room) }
{
    let inside = room.saturating_sub(1);
    match statement {
        Stmt::If(arms, other) => {
            let arms = if_arms(alloc, arms, inside)?;
            let other = statements(alloc, other, inside)?;
            choice_of(arms, other)
        }
        Stmt::Case(selector, arms, other) => {
            let arms = case_arms(alloc, arms, inside)?;
            let other = statements(alloc, other, inside)?;
            Ok(Stmt::Case(selector, arms, other))
        }
        Stmt::While(test, body) => {
            let body = statements(alloc, body, inside)?;
            loop_of(alloc, room, test, body)
        }
        Stmt::Assign(var, value) => Ok(Stmt::Assign(var, value)),
        Stmt::AreaWrite(width, pointer, value) => Ok(Stmt::AreaWrite(width, pointer, value)),
        Stmt::Invoke(unit, actuals) => Ok(Stmt::Invoke(unit, actuals)),
        Stmt::Exit => Ok(Stmt::Exit),
        Stmt::Continue => Ok(Stmt::Continue),
        Stmt::Return => Ok(Stmt::Return),
    }
}

/// Statements with their conditions in their place. So many levels from here on, tests of loops may change.
#[cycle(rewrite)]
pub fn statements(alloc: Global, body: List<Stmt>, room: u32) -> Result<List<Stmt>, NoMemory>
    ensures { IfOk result (λ new. new ≡ at room (map rewrite body)) }
{
    let mut new = List::new(alloc);
    for x in body.into_vec() {
        new.push(statement(alloc, x, room)?)?;
    }
    Ok(new)
}
