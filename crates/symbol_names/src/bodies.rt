//! The instructions of bodies.
ghost use Rattle.std.specs.Prelude.{◌≡◌, ◌∷◌, ◌++◌, [], IfOk, OnOk};
ghost use Rattle.std.specs.List.{flat_map};
ghost use Rattle.std.specs.Result.{result_err};
ghost use Rattle.stl_rules.specs.Programs.{body_of, instr_of, instrs_of, op_of, or_any, with_list};
ghost use Rattle.stl_rules.specs.Stages.{instr_breaks};
ghost use Rattle.block_variables.specs.Firsts.{with_breaks};

use block_variables::note;
use body_labels::list_count;
use call_operands::{call_of, calling, rule_of_call};
use instruction_operands::op_or_rule;
use operand_scopes::OperandScope;
use s7_base::{Break, List, NoMemory, Reason, rest_after};
use std::alloc::Global;
use stl_mnemonics::mnemonic_named;
use stl_tree::{Instr, Op, RawInstr, RawOp, RawOperand};

/// The instruction of a raw one, or the rule that it breaks.
#[tactic(auto, unfolding(stl_rules::specs::Programs::op_of))]
fn op_by(
    alloc: Global,
    scope: &OperandScope<'_, '_>,
    raw: &RawOp,
) -> Result<Result<Op, Reason>, NoMemory>
    ensures { IfOk result (λ made. made ≡ op_of scope.now raw.now) }
{
    let what = mnemonic_named(raw.mnemonic.as_slice());
    match &raw.operand {
        RawOperand::Call(call) => match call_of(alloc, scope, call.get())? {
            Ok(call) => Ok(calling(what, call)),
            Err(rule) => Ok(Err(rule)),
        },
        operand => Ok(op_or_rule(what, scope.resolved_operand(alloc, operand)?)),
    }
}

/// The rule that an instruction breaks, if it breaks one.
#[tactic(auto, unfolding(stl_rules::specs::Programs::op_of))]
fn rule_of(
    alloc: Global,
    scope: &OperandScope<'_, '_>,
    raw: &RawOp,
) -> Result<Option<Reason>, NoMemory>
    ensures { IfOk result (λ rule. rule ≡ result_err (op_of scope.now raw.now)) }
{
    match &raw.operand {
        RawOperand::Call(call) => {
            rule_of_call(
                alloc,
                scope,
                mnemonic_named(raw.mnemonic.as_slice()),
                call.get(),
            )
        }
        _ => match op_by(alloc, scope, raw)? {
            Ok(_) => Ok(None),
            Err(rule) => Ok(Some(rule)),
        },
    }
}

/// Notes the rule that an instruction breaks.
#[tactic(auto, using(crate::proofs::Instructions::noted_laws))]
fn note_instr(
    alloc: Global,
    scope: &OperandScope<'_, '_>,
    raw: &RawInstr,
    first: &mut Option<Break>,
) -> Result<(), NoMemory>
    ensures { OnOk result (first.new ≡ with_breaks first.old (instr_breaks scope.now raw.now)) }
{
    match rule_of(alloc, scope, &raw.op)? {
        Some(rule) => note(first, raw.line, rule),
        None => {}
    }
    Ok(())
}

/// Notes the rules that the instructions of a block break.
pub fn note_instrs(
    alloc: Global,
    scope: &OperandScope<'_, '_>,
    raws: &[RawInstr],
    first: &mut Option<Break>,
) -> Result<(), NoMemory>
    ensures { OnOk result (first.new ≡ with_breaks first.old (flat_map (instr_breaks scope.now) raws.now)) }
{
    for raw in raws {
        note_instr(alloc, scope, raw, first)?;
    }
    Ok(())
}

/// The instruction of a raw one; where it breaks a rule this is noted, and the instruction is any.
#[tactic(auto, using(block_variables::proofs::Firsts::none_more), unfolding(stl_rules::specs::Programs::op_of))]
fn op_of(
    alloc: Global,
    scope: &OperandScope<'_, '_>,
    raw: &RawInstr,
    first: &mut Option<Break>,
) -> Result<Op, NoMemory>
    ensures op { IfOk result (λ op. op ≡ or_any (op_of scope.now raw.now.op)) }
    ensures first { OnOk result (first.new ≡ with_breaks first.old (instr_breaks scope.now raw.now)) }
{
    match op_by(alloc, scope, &raw.op)? {
        Ok(op) => Ok(op),
        Err(rule) => {
            note(first, raw.line, rule);
            Ok(Op::Nop)
        }
    }
}

/// A jump list with the number of its `JU`, which are the first of these instructions.
fn with_list(op: Op, rest: &[RawInstr]) -> Op
    ensures { result ≡ with_list rest.now op }
{
    match op {
        Op::JumpList(_, to) => Op::JumpList(list_count(rest), to),
        other => other,
    }
}

/// Adds an instruction, which comes before these, to a body.
fn put_instr(
    alloc: Global,
    scope: &OperandScope<'_, '_>,
    raw: &RawInstr,
    rest: &[RawInstr],
    body: &mut List<Instr>,
    first: &mut Option<Break>,
) -> Result<(), NoMemory>
    ensures body { OnOk result (body.new ≡ body.old ++ instr_of scope.now raw.now rest.now ∷ []) }
    ensures first { OnOk result (first.new ≡ with_breaks first.old (instr_breaks scope.now raw.now)) }
{
    let op = op_of(alloc, scope, raw, first)?;
    let op = with_list(op, rest);
    body.push(Instr { line: raw.line, op })
}

/// The instructions of a body but for its end word.
#[tactic(auto, using(crate::proofs::Instructions::more_laws))]
fn put_instrs(
    alloc: Global,
    scope: &OperandScope<'_, '_>,
    raws: &[RawInstr],
    body: &mut List<Instr>,
    first: &mut Option<Break>,
) -> Result<(), NoMemory>
    ensures body { OnOk result (body.new ≡ body.old ++ instrs_of scope.now raws.now) }
    ensures first { OnOk result (first.new ≡ with_breaks first.old (flat_map (instr_breaks scope.now) raws.now)) }
{
    let mut rest = raws;
    while let [raw, ..] = rest {
        let behind = rest_after(rest, 1);
        put_instr(alloc, scope, raw, behind, body, first)?;
        rest = behind;
    }
    Ok(())
}

/// The instructions of a block.
pub fn body_of(
    alloc: Global,
    scope: &OperandScope<'_, '_>,
    first: &mut Option<Break>,
) -> Result<List<Instr>, NoMemory>
    ensures body { IfOk result (λ body. body ≡ body_of scope.now) }
    ensures first { OnOk result (first.new ≡ with_breaks first.old (flat_map (instr_breaks scope.now) scope.now.block.body)) }
{
    let raw = scope.block();
    let mut body = List::new(alloc);
    put_instrs(alloc, scope, raw.body.as_slice(), &mut body, first)?;
    body.push(Instr {
        line: raw.end_line,
        op: Op::BlockEnd,
    })?;
    Ok(body)
}
