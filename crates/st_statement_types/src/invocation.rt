//! Calls of functions: which function is called, and what each of its formals is given.
ghost use Rattle.std.specs.Prelude.{◌≡◌, [], ◌++◌, Some, IfOk, OnOk};
ghost use Rattle.st_rules.specs.Invocations.{call_with, callee, formal_breaks, function_call, given_by, given_to_none, in_order, invocation, lacks, no_call, plain, var_given, with_actual, with_name};
ghost use Rattle.st_rules.specs.Judged.{IsJudged};

use crate::expression::{Context, variable_on};
use s7_base::{Break, Line, List, NoMemory, Reason, note};
use st_names::lists::keep;
use st_names::scope::{Formals, Meaning, NameScope};
use st_names::table::Table;
use st_names::variable::TypedVar;
use st_tree::{RawVar, StType, Stmt, Var, is_type, key_of};
use std::alloc::Global;

/// The position of the function that a name means. A name that means nothing is UnknownName, one that
/// means no function TypeMismatch.
pub fn callee(meaning: Option<Meaning>) -> Result<u32, Reason>
    ensures { result ≡ callee meaning }
{
    match meaning {
        None => Err(Reason::UnknownName),
        Some(Meaning::Function(position)) => Ok(position),
        Some(_) => Err(Reason::TypeMismatch),
    }
}

fn plain(variable: Option<TypedVar>) -> Option<Var>
    ensures { result ≡ plain variable }
{
    match variable {
        Some(variable) => Some(variable.var),
        None => None,
    }
}

fn judge_formal(
    line: Line,
    formal: Option<StType>,
    before: Option<Option<Var>>,
    variable: Option<TypedVar>,
    breaks: &mut List<Break>,
) -> Result<(), NoMemory>
    ensures { OnOk result (breaks.new ≡ breaks.old ++ formal_breaks line formal before variable) }
{
    let Some(ty) = formal else {
        return note(breaks, line, Reason::UnknownName);
    };
    if before.is_some() {
        return note(breaks, line, Reason::DuplicateName);
    }
    match variable {
        Some(variable) => {
            if is_type(variable.ty, ty) {
                Ok(())
            } else {
                note(breaks, line, Reason::TypeMismatch)
            }
        }
        None => Ok(()),
    }
}

/// Takes one actual more into what the formals are given.
fn with_actual(
    at: Context<'_>,
    types: &Table<StType>,
    actual: &(List<u8>, RawVar),
    vars: &mut Table<Option<Var>>,
    breaks: &mut List<Break>,
) -> Result<(), NoMemory>
    ensures vars { OnOk result (vars.new
        ≡ (with_actual at.entry.scope.now at.entry.line types.now (record { vars = vars.old; breaks = [] }) actual.now).vars) }
    ensures breaks { OnOk result (breaks.new ≡ breaks.old
        ++ (with_actual at.entry.scope.now at.entry.line types.now (record { vars = vars.old; breaks = [] }) actual.now).breaks) }
{
    let variable = variable_on(at, &actual.1, breaks)?;
    let key = key_of(at.alloc, actual.0.as_slice())?;
    let formal = types.look_up(key.as_slice());
    let before = vars.look_up(key.as_slice());
    judge_formal(at.line, formal, before, variable, breaks)?;
    vars.declare(key, plain(variable))?;
    Ok(())
}

/// What the formals are given by all actuals.
fn given_by(
    at: Context<'_>,
    types: &Table<StType>,
    actuals: &[(List<u8>, RawVar)],
    breaks: &mut List<Break>,
) -> Result<Table<Option<Var>>, NoMemory>
    ensures vars { IfOk result (λ vars. vars ≡ (given_by at.entry.scope.now at.entry.line types.now actuals.now).vars) }
    ensures breaks { OnOk result (breaks.new ≡ breaks.old ++ (given_by at.entry.scope.now at.entry.line types.now actuals.now).breaks) }
{
    let mut vars = Table::new(at.alloc);
    for actual in actuals {
        with_actual(at, types, actual, &mut vars, breaks)?;
    }
    Ok(vars)
}

fn var_given(given: Option<Option<Var>>) -> Option<Var>
    ensures { result ≡ var_given given }
{
    match given {
        Some(var) => var,
        None => None,
    }
}

fn lacks(vars: &Table<Option<Var>>, keys: &[List<u8>]) -> bool
    ensures { result ≡ lacks vars.now keys.now }
{
    keys.iter()
        .any(|key| vars.look_up(key.as_slice()).is_none())
}

fn in_order(
    alloc: Global,
    vars: &Table<Option<Var>>,
    keys: &[List<u8>],
) -> Result<List<Var>, NoMemory>
    ensures { IfOk result (λ list. list ≡ in_order vars.now keys.now) }
{
    let mut list = List::new(alloc);
    for key in keys {
        keep(&mut list, var_given(vars.look_up(key.as_slice())))?;
    }
    Ok(list)
}

fn call_with(
    at: Context<'_>,
    position: u32,
    vars: &Table<Option<Var>>,
    keys: &[List<u8>],
    breaks: &mut List<Break>,
) -> Result<Option<Stmt>, NoMemory>
    ensures { IsJudged result breaks.old breaks.new (call_with at.entry.line position vars.now keys.now) }
{
    if lacks(vars, keys) {
        note(breaks, at.line, Reason::TypeMismatch)?;
        return Ok(None);
    }
    let list = in_order(at.alloc, vars, keys)?;
    Ok(Some(Stmt::Invoke(position, list)))
}

/// Takes one actual more of a call of what is no function: its name may be given once.
fn with_name(
    at: Context<'_>,
    actual: &(List<u8>, RawVar),
    vars: &mut Table<Option<Var>>,
    breaks: &mut List<Break>,
) -> Result<(), NoMemory>
    ensures vars { OnOk result (vars.new
        ≡ (with_name at.entry.scope.now at.entry.line (record { vars = vars.old; breaks = [] }) actual.now).vars) }
    ensures breaks { OnOk result (breaks.new ≡ breaks.old
        ++ (with_name at.entry.scope.now at.entry.line (record { vars = vars.old; breaks = [] }) actual.now).breaks) }
{
    let variable = variable_on(at, &actual.1, breaks)?;
    let key = key_of(at.alloc, actual.0.as_slice())?;
    if vars.declare(key, plain(variable))? {
        Ok(())
    } else {
        note(breaks, at.line, Reason::DuplicateName)
    }
}

/// Judges the names and the variables of some actuals, without the formals that they name.
fn judge_actuals(
    at: Context<'_>,
    actuals: &[(List<u8>, RawVar)],
    breaks: &mut List<Break>,
) -> Result<(), NoMemory>
    ensures { OnOk result (breaks.new ≡ breaks.old ++ (given_to_none at.entry.scope.now at.entry.line actuals.now).breaks) }
{
    let mut vars = Table::new(at.alloc);
    for actual in actuals {
        with_name(at, actual, &mut vars, breaks)?;
    }
    Ok(())
}

fn no_call(
    at: Context<'_>,
    rule: Reason,
    actuals: &[(List<u8>, RawVar)],
    breaks: &mut List<Break>,
) -> Result<Option<Stmt>, NoMemory>
    ensures { IsJudged result breaks.old breaks.new (no_call at.entry.scope.now at.entry.line rule actuals.now) }
{
    note(breaks, at.line, rule)?;
    judge_actuals(at, actuals, breaks)?;
    Ok(None)
}

fn call_of(
    at: Context<'_>,
    position: u32,
    formals: &Formals,
    actuals: &[(List<u8>, RawVar)],
    breaks: &mut List<Break>,
) -> Result<Option<Stmt>, NoMemory>
    ensures { IsJudged result breaks.old breaks.new
        (function_call at.entry.scope.now at.entry.line position (Some formals.now) actuals.now) }
{
    let vars = given_by(at, &formals.types, actuals, breaks)?;
    call_with(at, position, &vars, formals.keys.as_slice(), breaks)
}

/// A call as it is written; notes the rules that are broken in it.
pub fn invocation(
    at: Context<'_>,
    name: &List<u8>,
    actuals: &[(List<u8>, RawVar)],
    breaks: &mut List<Break>,
) -> Result<Option<Stmt>, NoMemory>
    ensures { IsJudged result breaks.old breaks.new (invocation at.entry.scope.now at.entry.line name.now actuals.now) }
{
    let key = key_of(at.alloc, name.as_slice())?;
    match callee(at.scope.meaning(key.as_slice())) {
        Err(rule) => no_call(at, rule, actuals, breaks),
        Ok(position) => match at.scope.formals.as_slice().get(position as usize) {
            Some(formals) => call_of(at, position, formals, actuals, breaks),
            None => no_call(at, Reason::TypeMismatch, actuals, breaks),
        },
    }
}
