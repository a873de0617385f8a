//! The places that the statements of a text name directly.
ghost use Rattle.std.specs.Prelude.{◌≡◌, [], fold, IfOk, OnOk};
ghost use Rattle.st_globals.specs.inner.Tables.{with_arm_keys, with_case_keys, with_expr_keys, with_key, with_stmt_keys, with_unit_keys};

use crate::keys::{PlaceKey, key_at};
use indexmap::IndexSet;
use s7_base::NoMemory;
use st_tree::{Arm, CaseArm, Expr, Pou, Stmt, Var};
use std::alloc::Global;

/// Puts the place of a variable.
fn put_var(keys: &mut IndexSet<PlaceKey>, var: Var) -> Result<(), NoMemory>
    ensures { OnOk result (keys.new.keys ≡ with_key keys.old.keys var) }
{
    if let Var::Direct(area, byte, bit, width) = var {
        keys.insert(key_at(area, byte, bit, width))?;
    }
    Ok(())
}

/// Puts the places of some variables.
fn put_vars(keys: &mut IndexSet<PlaceKey>, vars: &[Var]) -> Result<(), NoMemory>
    ensures { OnOk result (keys.new.keys ≡ fold with_key keys.old.keys vars.now) }
{
    for var in vars {
        put_var(keys, *var)?;
    }
    Ok(())
}

/// Puts the places of an expression.
#[tactic(auto, using(crate::proofs::Marking::both_keys))]
fn put_expr(keys: &mut IndexSet<PlaceKey>, expr: &Expr) -> Result<(), NoMemory>
    ensures { OnOk result (keys.new.keys ≡ with_expr_keys keys.old.keys expr.now) }
{
    match expr {
        Expr::Literal(_, _) => Ok(()),
        Expr::Read(var) => put_var(keys, *var),
        Expr::Unary(_, operand) => put_expr(keys, operand.get()),
        Expr::Binary(_, left, right) => {
            put_expr(keys, left.get())?;
            put_expr(keys, right.get())
        }
        Expr::Convert(_, _, operand) => put_expr(keys, operand.get()),
        Expr::Select(gate, first, second) => {
            put_expr(keys, gate.get())?;
            put_expr(keys, first.get())?;
            put_expr(keys, second.get())
        }
        Expr::Shift(_, operand, count) => {
            put_expr(keys, operand.get())?;
            put_expr(keys, count.get())
        }
        Expr::AreaRead(_, pointer) => put_expr(keys, pointer.get()),
    }
}

/// Puts the places of a statement.
#[cycle(statements)]
#[tactic(auto, using(crate::proofs::Marking::both_keys, crate::proofs::Marking::choice_keys, crate::proofs::Marking::if_keys, crate::proofs::Marking::while_keys))]
fn put_stmt(keys: &mut IndexSet<PlaceKey>, stmt: &Stmt) -> Result<(), NoMemory>
    ensures { OnOk result (keys.new.keys ≡ with_stmt_keys keys.old.keys stmt.now) }
{
    match stmt {
        Stmt::Assign(var, value) => {
            put_var(keys, *var)?;
            put_expr(keys, value)
        }
        Stmt::AreaWrite(_, pointer, value) => {
            put_expr(keys, pointer.get())?;
            put_expr(keys, value.get())
        }
        Stmt::Invoke(_, actuals) => put_vars(keys, actuals.as_slice()),
        Stmt::If(arms, other) => {
            put_arms(keys, arms.as_slice())?;
            put_body(keys, other.as_slice())
        }
        Stmt::Case(selector, arms, other) => {
            put_expr(keys, selector)?;
            put_cases(keys, arms.as_slice())?;
            put_body(keys, other.as_slice())
        }
        Stmt::While(test, body) => {
            put_expr(keys, test)?;
            put_body(keys, body.as_slice())
        }
        Stmt::Exit | Stmt::Continue | Stmt::Return => Ok(()),
    }
}

/// Puts the places of the arms of an IF.
#[cycle(statements)]
#[tactic(auto, using(crate::proofs::Marking::arm_keys))]
fn put_arms(keys: &mut IndexSet<PlaceKey>, arms: &[Arm]) -> Result<(), NoMemory>
    ensures { OnOk result (keys.new.keys ≡ fold with_arm_keys keys.old.keys arms.now) }
{
    for arm in arms {
        put_expr(keys, &arm.test)?;
        put_body(keys, arm.body.as_slice())?;
    }
    Ok(())
}

/// Puts the places of the arms of a CASE.
#[cycle(statements)]
#[tactic(auto, using(crate::proofs::Marking::case_keys))]
fn put_cases(keys: &mut IndexSet<PlaceKey>, arms: &[CaseArm]) -> Result<(), NoMemory>
    ensures { OnOk result (keys.new.keys ≡ fold with_case_keys keys.old.keys arms.now) }
{
    for arm in arms {
        put_body(keys, arm.body.as_slice())?;
    }
    Ok(())
}

/// Puts the places of some statements.
#[cycle(statements)]
fn put_body(keys: &mut IndexSet<PlaceKey>, body: &[Stmt]) -> Result<(), NoMemory>
    ensures { OnOk result (keys.new.keys ≡ fold with_stmt_keys keys.old.keys body.now) }
{
    for stmt in body {
        put_stmt(keys, stmt)?;
    }
    Ok(())
}

/// The places that the statements of some units name directly.
#[tactic(auto, using(crate::proofs::Marking::unit_keys))]
pub fn places_in(alloc: Global, units: &[Pou]) -> Result<IndexSet<PlaceKey>, NoMemory>
    ensures { IfOk result (λ keys. keys.keys ≡ fold with_unit_keys [] units.now) }
{
    let mut keys = IndexSet::new(alloc);
    for unit in units {
        put_body(&mut keys, unit.body.as_slice())?;
    }
    Ok(keys)
}
