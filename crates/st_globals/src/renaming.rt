//! Statements whose places are named by globals. They are changed in their own memory, but for operands, which are put
//! into boxes anew.
ghost use Rattle.std.specs.Prelude.{◌≡◌, IfOk, map};
ghost use Rattle.st_globals.specs.WithVariables.{arm_with, body_with, case_with, expr_with, stmt_with, unit_with};
ghost use Rattle.st_globals.specs.inner.Tables.{var_by};

use crate::keys::{PlaceKey, key_at, look_up};
use indexmap::IndexMap;
use s7_base::{Boxed, List, NoMemory};
use st_tree::{Arm, CaseArm, Expr, Pou, StType, Stmt, Var};
use std::alloc::Global;
use std::mem::replace;

/// What stands for a variable: the global that has its place, if there is one.
fn named_var(numbers: &IndexMap<PlaceKey, u32>, var: Var) -> Var
    ensures { result ≡ var_by numbers.now.entries var }
{
    match var {
        Var::Direct(area, byte, bit, width) => {
            match look_up(numbers, key_at(area, byte, bit, width)) {
                Some(number) => Var::Global(number),
                None => var,
            }
        }
        _ => var,
    }
}

/// The operand of an operator.
#[cycle(expr)]
fn named_operand(
    alloc: Global,
    numbers: &IndexMap<PlaceKey, u32>,
    operand: Boxed<Expr>,
) -> Result<Boxed<Expr>, NoMemory>
    ensures { IfOk result (λ named. named ≡ expr_with (var_by numbers.now.entries) operand) }
{
    let named = named_expr(alloc, numbers, operand.into_inner())?;
    Boxed::new(alloc, named)
}

#[cycle(expr)]
fn named_expr(
    alloc: Global,
    numbers: &IndexMap<PlaceKey, u32>,
    expr: Expr,
) -> Result<Expr, NoMemory>
    ensures { IfOk result (λ named. named ≡ expr_with (var_by numbers.now.entries) expr) }
{
    match expr {
        Expr::Literal(ty, value) => Ok(Expr::Literal(ty, value)),
        Expr::Read(var) => Ok(Expr::Read(named_var(numbers, var))),
        Expr::Unary(op, operand) => Ok(Expr::Unary(op, named_operand(alloc, numbers, operand)?)),
        Expr::Binary(op, left, right) => {
            let left = named_operand(alloc, numbers, left)?;
            let right = named_operand(alloc, numbers, right)?;
            Ok(Expr::Binary(op, left, right))
        }
        Expr::Convert(from, to, operand) => {
            Ok(Expr::Convert(from, to, named_operand(alloc, numbers, operand)?))
        }
        Expr::Select(gate, first, second) => {
            let gate = named_operand(alloc, numbers, gate)?;
            let first = named_operand(alloc, numbers, first)?;
            let second = named_operand(alloc, numbers, second)?;
            Ok(Expr::Select(gate, first, second))
        }
        Expr::Shift(op, operand, count) => {
            let operand = named_operand(alloc, numbers, operand)?;
            let count = named_operand(alloc, numbers, count)?;
            Ok(Expr::Shift(op, operand, count))
        }
        Expr::AreaRead(width, pointer) => {
            Ok(Expr::AreaRead(width, named_operand(alloc, numbers, pointer)?))
        }
    }
}

/// The actuals of a call.
fn named_actuals(numbers: &IndexMap<PlaceKey, u32>, actuals: List<Var>) -> List<Var>
    ensures { result ≡ map (var_by numbers.now.entries) actuals }
{
    let mut vars = actuals.into_vec();
    for var in vars.iter_mut() {
        *var = named_var(numbers, *var);
    }
    List::from_vec(vars)
}

#[cycle(statements)]
fn named_stmt(
    alloc: Global,
    numbers: &IndexMap<PlaceKey, u32>,
    stmt: Stmt,
) -> Result<Stmt, NoMemory>
    ensures { IfOk result (λ named. named ≡ stmt_with (var_by numbers.now.entries) stmt) }
{
    match stmt {
        Stmt::Assign(var, value) => {
            let value = named_expr(alloc, numbers, value)?;
            Ok(Stmt::Assign(named_var(numbers, var), value))
        }
        Stmt::AreaWrite(width, pointer, value) => {
            let pointer = named_operand(alloc, numbers, pointer)?;
            let value = named_operand(alloc, numbers, value)?;
            Ok(Stmt::AreaWrite(width, pointer, value))
        }
        Stmt::Invoke(unit, actuals) => Ok(Stmt::Invoke(unit, named_actuals(numbers, actuals))),
        Stmt::If(arms, other) => {
            let arms = named_arms(alloc, numbers, arms)?;
            let other = named_body(alloc, numbers, other)?;
            Ok(Stmt::If(arms, other))
        }
        Stmt::Case(selector, arms, other) => {
            let selector = named_expr(alloc, numbers, selector)?;
            let arms = named_cases(alloc, numbers, arms)?;
            let other = named_body(alloc, numbers, other)?;
            Ok(Stmt::Case(selector, arms, other))
        }
        Stmt::While(test, body) => {
            let test = named_expr(alloc, numbers, test)?;
            let body = named_body(alloc, numbers, body)?;
            Ok(Stmt::While(test, body))
        }
        Stmt::Exit => Ok(Stmt::Exit),
        Stmt::Continue => Ok(Stmt::Continue),
        Stmt::Return => Ok(Stmt::Return),
    }
}

#[cycle(statements)]
fn named_arms(
    alloc: Global,
    numbers: &IndexMap<PlaceKey, u32>,
    arms: List<Arm>,
) -> Result<List<Arm>, NoMemory>
    ensures { IfOk result (λ named. named ≡ map (arm_with (var_by numbers.now.entries)) arms) }
{
    let mut items = arms.into_vec();
    for arm in items.iter_mut() {
        let none = Arm {
            test: Expr::Literal(StType::Bool, 0),
            body: List::new(alloc),
        };
        let Arm { test, body } = replace(arm, none);
        let test = named_expr(alloc, numbers, test)?;
        let body = named_body(alloc, numbers, body)?;
        *arm = Arm { test, body };
    }
    Ok(List::from_vec(items))
}

#[cycle(statements)]
fn named_cases(
    alloc: Global,
    numbers: &IndexMap<PlaceKey, u32>,
    arms: List<CaseArm>,
) -> Result<List<CaseArm>, NoMemory>
    ensures { IfOk result (λ named. named ≡ map (case_with (var_by numbers.now.entries)) arms) }
{
    let mut items = arms.into_vec();
    for arm in items.iter_mut() {
        let none = CaseArm {
            labels: List::new(alloc),
            body: List::new(alloc),
        };
        let CaseArm { labels, body } = replace(arm, none);
        let body = named_body(alloc, numbers, body)?;
        *arm = CaseArm { labels, body };
    }
    Ok(List::from_vec(items))
}

#[cycle(statements)]
fn named_body(
    alloc: Global,
    numbers: &IndexMap<PlaceKey, u32>,
    body: List<Stmt>,
) -> Result<List<Stmt>, NoMemory>
    ensures { IfOk result (λ named. named ≡ body_with (var_by numbers.now.entries) body) }
{
    let mut items = body.into_vec();
    for stmt in items.iter_mut() {
        *stmt = named_stmt(alloc, numbers, replace(stmt, Stmt::Exit))?;
    }
    Ok(List::from_vec(items))
}

/// A unit whose places are named by globals.
fn named_unit(alloc: Global, numbers: &IndexMap<PlaceKey, u32>, unit: Pou) -> Result<Pou, NoMemory>
    ensures { IfOk result (λ named. named ≡ unit_with (var_by numbers.now.entries) unit) }
{
    let mut unit = unit;
    unit.body = named_body(alloc, numbers, unit.body)?;
    Ok(unit)
}

/// Units whose places are named by globals.
pub fn named_units(
    alloc: Global,
    numbers: &IndexMap<PlaceKey, u32>,
    units: List<Pou>,
) -> Result<List<Pou>, NoMemory>
    ensures { IfOk result (λ named. named ≡ map (unit_with (var_by numbers.now.entries)) units) }
{
    let mut named = List::new(alloc);
    for unit in units.into_vec() {
        named.push(named_unit(alloc, numbers, unit)?)?;
    }
    Ok(named)
}
