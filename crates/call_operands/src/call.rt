//! A call.
ghost use Rattle.std.specs.Prelude.{◌≡◌, ◌≤◌, ◌==◌, IfOk, None, Ok, length, option_map};
ghost use Rattle.std.specs.Result.{result_err};
ghost use Rattle.memory_areas.specs.Access.{and_then};
ghost use Rattle.stl_rules.specs.Calls.{actuals_for, block_call, call_of, call_rules, formals_called, given_by, instance_of_call, least_rule};
ghost use Rattle.stl_rules.specs.Names.{block_number};
ghost use Rattle.stl_rules.specs.Programs.{calling, gives_nothing};
ghost use Rattle.stl_tree.specs.declared.raw.RawCall.{out-RawCall};
ghost use Rattle.call_operands.specs.inner.Rules.{rule_of_mnemonic, unless_bare};

use crate::actuals::Actuals;
use crate::given::{given_to, or_missing};
use crate::rules::least_rule;
use block_variables::BlockVariables;
use operand_scopes::OperandScope;
use s7_base::{List, NoMemory, Reason};
use std::alloc::Global;
use stl_statement_grammar::Mnemonic;
use stl_tree::{Actual, BlockCall, BlockKind, Formal, Op, RawActual, RawCall, RawName};

/// What a call gives to a formal by the actual for it.
fn given_by(
    alloc: Global,
    scope: &OperandScope<'_, '_>,
    formal: &Formal,
    actual: Option<&RawActual>,
) -> Result<Actual, NoMemory>
    ensures { IfOk result (λ a. a ≡ given_by scope.now formal.now (option_map (λ a. a.now) actual.entry)) }
{
    match actual {
        None => Ok(Actual::Missing),
        Some(actual) => {
            let given = scope.resolved_operand(alloc, &actual.value)?;
            Ok(or_missing(given_to(formal, given)))
        }
    }
}

/// What a call gives to formals.
fn actuals_for(
    alloc: Global,
    scope: &OperandScope<'_, '_>,
    actuals: &Actuals<'_>,
    formals: &[Formal],
) -> Result<List<Actual>, NoMemory>
    ensures { IfOk result (λ given. given ≡ actuals_for scope.now actuals.now formals.now) }
{
    let mut given = List::new(alloc);
    for formal in formals {
        let actual = actuals.actual_named(alloc, formal.name.as_slice())?;
        given.push(given_by(alloc, scope, formal, actual)?)?;
    }
    Ok(given)
}

/// What a call gives to the formals of the block that it calls, where that is there.
fn actuals_of(
    alloc: Global,
    scope: &OperandScope<'_, '_>,
    actuals: &Actuals<'_>,
    called: Option<&BlockVariables<'_>>,
) -> Result<List<Actual>, NoMemory>
    ensures { IfOk result (λ given. given ≡ actuals_for scope.now actuals.now (formals_called (option_map (λ b. b.now) called.entry))) }
{
    match called {
        Some(called) => actuals_for(alloc, scope, actuals, called.formals()),
        None => Ok(List::new(alloc)),
    }
}

/// The number of the instance of a call, 0 for a function.
fn instance_of_call(
    alloc: Global,
    scope: &OperandScope<'_, '_>,
    db: &Option<RawName>,
) -> Result<u16, NoMemory>
    requires { instance_of_call scope.now.text.symbols db.now ≤ 65535 }
    ensures { IfOk result (λ n. n ≡ instance_of_call scope.now.text.symbols db.now) }
{
    let Some(name) = db else {
        return Ok(0);
    };
    let number = scope
        .names()
        .symbols()
        .block_number(alloc, BlockKind::Db, name)?;
    match number {
        Ok(number) => Ok(number as u16),
        Err(_) => Ok(0),
    }
}

/// The call of a block that has this number, where it breaks no rule.
fn block_call(
    alloc: Global,
    scope: &OperandScope<'_, '_>,
    call: &RawCall,
    actuals: &Actuals<'_>,
    number: u32,
) -> Result<BlockCall, NoMemory>
    requires actuals { actuals.now ≡ (out-RawCall call.now).actuals }
    requires number { Ok number ≡ block_number scope.now.text.symbols (out-RawCall call.now).kind (out-RawCall call.now).block }
    requires rules { None ≡ least_rule (call_rules scope.now (out-RawCall call.now)) }
    ensures { IfOk result (λ made. made ≡ block_call scope.now (out-RawCall call.now)) }
{
    let block = scope.position_of(call.kind, number)?;
    let instance = instance_of_call(alloc, scope, &call.db)?;
    let called = scope.block_numbered(call.kind, number);
    Ok(BlockCall {
        block,
        instance,
        actuals: actuals_of(alloc, scope, actuals, called)?,
    })
}

/// Whether a call gives nothing: no instance, and nothing to a formal.
fn gives_nothing(call: &BlockCall) -> bool
    ensures { result ≡ gives_nothing call.now }
{
    call.instance == 0 && call.actuals.len() == 0
}

/// A call, or of the rules that it breaks the one with the least number.
pub fn call_of(
    alloc: Global,
    scope: &OperandScope<'_, '_>,
    call: &RawCall,
) -> Result<Result<BlockCall, Reason>, NoMemory>
    ensures { IfOk result (λ made. made ≡ call_of scope.now call.now) }
{
    let actuals = Actuals::new(alloc, call.actuals.as_slice())?;
    let number = scope
        .names()
        .symbols()
        .block_number(alloc, call.kind, &call.block)?;
    let least = least_rule(alloc, scope, call, &actuals, number)?;
    match (least, number) {
        (Some(rule), _) => Ok(Err(rule)),
        (None, Ok(number)) => Ok(Ok(block_call(alloc, scope, call, &actuals, number)?)),
        (None, Err(rule)) => Ok(Err(rule)),
    }
}

/// The instruction that calls a block, if the mnemonic is that of one.
pub fn calling(what: Option<Mnemonic>, call: BlockCall) -> Result<Op, Reason>
    ensures { result ≡ calling what call }
{
    match what {
        Some(Mnemonic::Call) => Ok(Op::Call(call)),
        Some(Mnemonic::CallAlone) if gives_nothing(&call) => Ok(Op::Call(call)),
        Some(Mnemonic::CallIf) if gives_nothing(&call) => Ok(Op::CallIf(call)),
        _ => Err(Reason::BadOperand),
    }
}

/// The rule that an instruction with a call breaks, if it breaks one. The call is not made.
pub fn rule_of_call(
    alloc: Global,
    scope: &OperandScope<'_, '_>,
    what: Option<Mnemonic>,
    call: &RawCall,
) -> Result<Option<Reason>, NoMemory>
    ensures { IfOk result (λ rule. rule ≡ result_err (and_then (call_of scope.now call.now) (calling what))) }
{
    let actuals = Actuals::new(alloc, call.actuals.as_slice())?;
    let number = scope
        .names()
        .symbols()
        .block_number(alloc, call.kind, &call.block)?;
    let least = least_rule(alloc, scope, call, &actuals, number)?;
    match (least, number) {
        (Some(rule), _) => Ok(Some(rule)),
        (None, Ok(number)) => Ok(rule_of_mnemonic(what, is_bare(scope, call, number))),
        (None, Err(rule)) => Ok(Some(rule)),
    }
}

/// Whether a block, where it is there, has no formals.
fn has_no_formals(called: Option<&BlockVariables<'_>>) -> bool
    ensures { result ≡ (length (formals_called (option_map (λ b. b.now) called.entry)) == 0) }
{
    match called {
        Some(called) => called.formals().is_empty(),
        None => true,
    }
}

/// Whether a call that breaks no rule by itself gives nothing: no instance, and nothing to a formal.
fn is_bare(scope: &OperandScope<'_, '_>, call: &RawCall, number: u32) -> bool
    requires number { Ok number ≡ block_number scope.now.text.symbols (out-RawCall call.now).kind (out-RawCall call.now).block }
    requires rules { None ≡ least_rule (call_rules scope.now (out-RawCall call.now)) }
    ensures { result ≡ gives_nothing (block_call scope.now (out-RawCall call.now)) }
{
    let has_none = has_no_formals(scope.block_numbered(call.kind, number));
    call.db.is_none() && has_none
}

/// The rule that is broken where a call gives something.
fn unless_bare(is_bare: bool) -> Option<Reason>
    ensures { result ≡ unless_bare is_bare }
{
    if is_bare {
        None
    } else {
        Some(Reason::BadOperand)
    }
}

/// The rule that a call breaks by its mnemonic, which breaks none by itself.
fn rule_of_mnemonic(what: Option<Mnemonic>, is_bare: bool) -> Option<Reason>
    ensures { result ≡ rule_of_mnemonic what is_bare }
{
    match what {
        Some(Mnemonic::Call) => None,
        Some(Mnemonic::CallAlone) => unless_bare(is_bare),
        Some(Mnemonic::CallIf) => unless_bare(is_bare),
        _ => Some(Reason::BadOperand),
    }
}
