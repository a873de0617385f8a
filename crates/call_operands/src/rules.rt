//! The rules that calls break.
ghost use Rattle.std.specs.Prelude.{◌≡◌, IfOk, OnOk, Ok, option_map};
ghost use Rattle.call_operands.specs.inner.Rules.{with_rules};
ghost use Rattle.stl_rules.specs.Calls.{all_own_rules, block_rules, call_rules, instance_numbered, instance_rules, is_other, least_rule, misses_one, missing_rules, own_rules, rules_of_actuals, rules_with};
ghost use Rattle.stl_rules.specs.Interfaces.{formals_of};
ghost use Rattle.stl_rules.specs.Names.{block_number};
ghost use Rattle.stl_tree.specs.declared.raw.RawCall.{out-RawCall};

use crate::actuals::{Actuals, are_repeated};
use crate::given::given_to;
use crate::least::{note, note_if};
use block_variables::BlockVariables;
use instruction_operands::may_have;
use operand_scopes::OperandScope;
use s7_base::{NoMemory, Reason};
use std::alloc::Global;
use stl_rules::ResolvedOperand;
use stl_tree::{BlockKind, Formal, RawActual, RawCall, RawDataKind, RawName};

/// Notes the rules that an actual breaks whatever its formal is.
#[tactic(auto, using(crate::proofs::LeastRules::rule_laws))]
fn note_own(given: ResolvedOperand, least: &mut Option<Reason>)
    ensures { least.new ≡ with_rules least.old (own_rules given) }
{
    match given {
        ResolvedOperand::Unknown => note(least, Reason::UnknownName),
        ResolvedOperand::Outside(_, _) | ResolvedOperand::NoPointer => {
            note(least, Reason::BadAddress)
        }
        _ => {}
    }
}

/// Notes those that all actuals break.
#[tactic(auto, using(crate::proofs::LeastRules::rule_laws))]
fn note_all_own(
    alloc: Global,
    scope: &OperandScope<'_, '_>,
    actuals: &[RawActual],
    least: &mut Option<Reason>,
) -> Result<(), NoMemory>
    ensures { OnOk result (least.new ≡ with_rules least.old (all_own_rules scope.now actuals.now)) }
{
    for actual in actuals {
        let given = scope.resolved_operand(alloc, &actual.value)?;
        note_own(given, least);
    }
    Ok(())
}

/// Notes the rules that what is given breaks with the formal of its name.
#[tactic(auto, using(crate::proofs::LeastRules::rule_laws))]
fn note_with(formal: Option<(u32, &Formal)>, given: ResolvedOperand, least: &mut Option<Reason>)
    ensures { least.new ≡ with_rules least.old (rules_with (option_map (λ p. (p.0, p.1.now)) formal.entry) given) }
{
    match formal {
        None => {
            note(least, Reason::UnknownName);
            note_own(given, least);
        }
        Some((_, formal)) => {
            if let Err(rule) = given_to(formal, given) {
                note(least, rule);
            }
        }
    }
}

/// Notes the rules that actuals break with the formals of a block.
#[tactic(auto, using(crate::proofs::LeastRules::rule_laws))]
fn note_actuals(
    alloc: Global,
    scope: &OperandScope<'_, '_>,
    called: &BlockVariables<'_>,
    actuals: &[RawActual],
    least: &mut Option<Reason>,
) -> Result<(), NoMemory>
    ensures { OnOk result (least.new ≡ with_rules least.old (rules_of_actuals scope.now (formals_of called.now) actuals.now)) }
{
    for actual in actuals {
        let formal = called.formal_named(alloc, actual.formal.as_slice())?;
        let given = scope.resolved_operand(alloc, &actual.value)?;
        note_with(formal, given, least);
    }
    Ok(())
}

/// Whether a formal of a block has no actual. Each name is looked up once, however often it is declared.
fn misses_one(actuals: &Actuals<'_>, called: &BlockVariables<'_>) -> bool
    ensures { result ≡ misses_one actuals.now (formals_of called.now) }
{
    actuals.lacks_one(called.formal_places())
}

/// Notes the rule that is broken where a formal of a function has no actual.
#[tactic(auto, using(crate::proofs::LeastRules::rule_laws))]
fn note_missing(
    kind: BlockKind,
    actuals: &Actuals<'_>,
    called: &BlockVariables<'_>,
    least: &mut Option<Reason>,
)
    ensures { least.new ≡ with_rules least.old (missing_rules kind actuals.now (formals_of called.now)) }
{
    match kind {
        BlockKind::Fc => note_if(least, misses_one(actuals, called), Reason::BadOperand),
        BlockKind::Ob | BlockKind::Fb | BlockKind::Db => {}
    }
}

/// Notes the rules that a call breaks by its block, which has this number.
#[tactic(auto, using(crate::proofs::LeastRules::rule_laws))]
fn note_block_numbered(
    alloc: Global,
    scope: &OperandScope<'_, '_>,
    kind: BlockKind,
    actuals: &Actuals<'_>,
    number: u32,
    least: &mut Option<Reason>,
) -> Result<(), NoMemory>
    ensures { OnOk result (least.new ≡ with_rules least.old (block_rules scope.now kind actuals.now (Ok number))) }
{
    note_if(least, !may_have(kind, number), Reason::BadAddress);
    match scope.block_numbered(kind, number) {
        None => {
            note(least, Reason::UnknownBlock);
            note_all_own(alloc, scope, actuals.all(), least)
        }
        Some(called) => {
            note_actuals(alloc, scope, called, actuals.all(), least)?;
            note_missing(kind, actuals, called, least);
            Ok(())
        }
    }
}

/// Notes the rules that a call breaks by its block.
#[tactic(auto, using(crate::proofs::LeastRules::rule_laws))]
fn note_block(
    alloc: Global,
    scope: &OperandScope<'_, '_>,
    kind: BlockKind,
    actuals: &Actuals<'_>,
    number: Result<u32, Reason>,
    least: &mut Option<Reason>,
) -> Result<(), NoMemory>
    ensures { OnOk result (least.new ≡ with_rules least.old (block_rules scope.now kind actuals.now number)) }
{
    match number {
        Ok(number) => note_block_numbered(alloc, scope, kind, actuals, number, least),
        Err(rule) => {
            note(least, rule);
            note_all_own(alloc, scope, actuals.all(), least)
        }
    }
}

/// Whether a data block is an instance of no function block of this number.
fn is_other(
    alloc: Global,
    scope: &OperandScope<'_, '_>,
    fb: Result<u32, Reason>,
    kind: &RawDataKind,
) -> Result<bool, NoMemory>
    ensures { IfOk result (λ other. other ≡ is_other scope.now.text.symbols fb kind.now) }
{
    let Ok(number) = fb else {
        return Ok(false);
    };
    match kind {
        RawDataKind::Own(_) => Ok(true),
        RawDataKind::Instance(name) => {
            let its = scope
                .names()
                .symbols()
                .block_number(alloc, BlockKind::Fb, name)?;
            match its {
                Ok(its) => Ok(its != number),
                Err(_) => Ok(true),
            }
        }
    }
}

/// Notes the rules that the data block of a number breaks as the instance of a function block.
#[tactic(auto, using(crate::proofs::LeastRules::rule_laws))]
fn note_instance(
    alloc: Global,
    scope: &OperandScope<'_, '_>,
    fb: Result<u32, Reason>,
    number: u32,
    least: &mut Option<Reason>,
) -> Result<(), NoMemory>
    ensures { OnOk result (least.new ≡ with_rules least.old (instance_numbered scope.now.text fb (Ok number))) }
{
    note_if(least, !may_have(BlockKind::Db, number), Reason::BadAddress);
    match scope.db_numbered(number) {
        None => note(least, Reason::UnknownBlock),
        Some(d) => {
            let other = is_other(alloc, scope, fb, &d.kind)?;
            note_if(least, other, Reason::BadOperand);
        }
    }
    Ok(())
}

/// Notes the rules that the instance of a call breaks.
#[tactic(auto, using(crate::proofs::LeastRules::rule_laws))]
fn note_instance_rules(
    alloc: Global,
    scope: &OperandScope<'_, '_>,
    kind: BlockKind,
    fb: Result<u32, Reason>,
    db: &Option<RawName>,
    least: &mut Option<Reason>,
) -> Result<(), NoMemory>
    ensures { OnOk result (least.new ≡ with_rules least.old (instance_rules scope.now.text kind fb db.now)) }
{
    match (kind, db) {
        (BlockKind::Fc, None) => {}
        (BlockKind::Fb, Some(name)) => {
            match scope
                .names()
                .symbols()
                .block_number(alloc, BlockKind::Db, name)?
            {
                Ok(number) => note_instance(alloc, scope, fb, number, least)?,
                Err(rule) => note(least, rule),
            }
        }
        _ => note(least, Reason::BadOperand),
    }
    Ok(())
}

/// The rule of the least number that a call breaks, whose block has this number.
pub fn least_rule(
    alloc: Global,
    scope: &OperandScope<'_, '_>,
    call: &RawCall,
    actuals: &Actuals<'_>,
    number: Result<u32, Reason>,
) -> Result<Option<Reason>, NoMemory>
    requires actuals { actuals.now ≡ (out-RawCall call.now).actuals }
    requires number { number ≡ block_number scope.now.text.symbols (out-RawCall call.now).kind (out-RawCall call.now).block }
    ensures { IfOk result (λ least. least ≡ least_rule (call_rules scope.now (out-RawCall call.now))) }
{
    let mut least = None;
    note_block(alloc, scope, call.kind, actuals, number, &mut least)?;
    note_instance_rules(alloc, scope, call.kind, number, &call.db, &mut least)?;
    let repeated = are_repeated(alloc, actuals.all())?;
    note_if(&mut least, repeated, Reason::DuplicateName);
    Ok(least)
}
