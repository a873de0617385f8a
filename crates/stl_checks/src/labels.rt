//! The rules of labels and jump lists.
ghost use Rattle.std.specs.Prelude.{◌≡◌, ◌++◌, ◌+◌, ◌==◌, OnOk, Some};
ghost use Rattle.stl_rules.specs.BodyRules.{broken_if, is_list, label_breaks, labels_at, labels_from, list_breaks, target_breaks};
ghost use Rattle.stl_rules.specs.Labels.{label_of, listed_in, target_in};
ghost use Rattle.stl_statement_grammar.specs.Mnemonics.{mnemonic_named};

use body_labels::{Labels, MOST_LISTED, listed_in};
use s7_base::{Break, Line, List, NoMemory, Reason, note, rest_after};
use stl_mnemonics::mnemonic_named;
use stl_statement_grammar::Mnemonic;
use stl_tree::{RawInstr, RawOperand};

/// Notes the rule that is broken on a line where a condition is true.
pub fn note_if(
    breaks: &mut List<Break>,
    holds: bool,
    line: Line,
    rule: Reason,
) -> Result<(), NoMemory>
    ensures { OnOk result (breaks.new ≡ breaks.old ++ broken_if holds line rule) }
{
    if holds {
        note(breaks, line, rule)
    } else {
        Ok(())
    }
}

/// Notes the rule that the label of an instruction at a position breaks.
fn note_label(
    breaks: &mut List<Break>,
    labels: &Labels<'_>,
    at: usize,
    line: Line,
    label: &Option<List<u8>>,
) -> Result<(), NoMemory>
    ensures { OnOk result (breaks.new ≡ breaks.old ++ label_breaks labels.now at line label.now) }
{
    match label {
        Some(label) => {
            let first = labels.target(label.as_slice()) as usize;
            note_if(breaks, first < at, line, Reason::DuplicateLabel)
        }
        None => Ok(()),
    }
}

/// Notes the rule that a jump to a label breaks.
#[tactic(auto, unfolding(stl_rules::specs::Labels::label_of))]
fn note_target(
    breaks: &mut List<Break>,
    labels: &Labels<'_>,
    line: Line,
    operand: &RawOperand,
) -> Result<(), NoMemory>
    ensures { OnOk result (breaks.new ≡ breaks.old ++ target_breaks labels.now line (label_of operand.now)) }
{
    match operand {
        RawOperand::Label(label) => {
            let is_known = labels.is_known(label.as_slice());
            note_if(breaks, !is_known, line, Reason::UnknownLabel)
        }
        _ => Ok(()),
    }
}

/// Whether a position is directly after so many instructions that come after another position.
fn is_directly_after(target: usize, at: usize, count: usize) -> bool
    ensures { result ≡ (target == at + 1 + count) }
{
    count < target && target - count - 1 == at
}

/// Whether so many `JU` come after a jump list at a position, and directly after them an instruction at the
/// position of its label.
fn is_list(labels: &Labels<'_>, at: usize, count: usize, label: &[u8]) -> bool
    ensures { result ≡ is_list labels.now at count (target_in labels.now label.now) }
{
    1 <= count
        && count <= MOST_LISTED
        && is_directly_after(labels.target(label) as usize, at, count)
        && labels.is_known(label)
}

/// Notes the rule that a jump to a label breaks if it is a jump list at a position, before these instructions.
fn note_list_of(
    breaks: &mut List<Break>,
    labels: &Labels<'_>,
    at: usize,
    raw: &RawInstr,
    label: &[u8],
    rest: &[RawInstr],
) -> Result<(), NoMemory>
    ensures { OnOk result (breaks.new
        ≡ breaks.old ++ list_breaks labels.now at (listed_in rest.now) raw.now.line (Some label.now) (mnemonic_named raw.now.op.mnemonic)) }
{
    match mnemonic_named(raw.op.mnemonic.as_slice()) {
        Some(Mnemonic::JumpList) => {
            let is_list = is_list(labels, at, listed_in(rest), label);
            note_if(breaks, !is_list, raw.line, Reason::BadJumpList)
        }
        _ => Ok(()),
    }
}

/// Notes the rule that an instruction breaks if it is a jump list at a position, before these instructions.
#[tactic(auto, unfolding(stl_rules::specs::Labels::label_of))]
fn note_list(
    breaks: &mut List<Break>,
    labels: &Labels<'_>,
    at: usize,
    raw: &RawInstr,
    rest: &[RawInstr],
) -> Result<(), NoMemory>
    ensures { OnOk result (breaks.new ≡ breaks.old
        ++ list_breaks labels.now at (listed_in rest.now) raw.now.line (label_of raw.now.op.operand) (mnemonic_named raw.now.op.mnemonic)) }
{
    match &raw.op.operand {
        RawOperand::Label(label) => note_list_of(breaks, labels, at, raw, label.as_slice(), rest),
        _ => Ok(()),
    }
}

/// Notes the rules of labels that an instruction at a position breaks, before these instructions.
fn note_labels_at(
    breaks: &mut List<Break>,
    labels: &Labels<'_>,
    at: usize,
    raw: &RawInstr,
    rest: &[RawInstr],
) -> Result<(), NoMemory>
    ensures { OnOk result (breaks.new ≡ breaks.old ++ labels_at labels.now at raw.now rest.now) }
{
    note_label(breaks, labels, at, raw.line, &raw.label)?;
    note_target(breaks, labels, raw.line, &raw.op.operand)?;
    note_list(breaks, labels, at, raw, rest)
}

/// Notes the rules of labels that a body breaks.
#[tactic(auto, using(crate::proofs::Lists::labels_more, crate::proofs::Lists::labels_all))]
pub fn note_labels(
    breaks: &mut List<Break>,
    labels: &Labels<'_>,
    body: &[RawInstr],
) -> Result<(), NoMemory>
    ensures { OnOk result (breaks.new ≡ breaks.old ++ labels_from labels.now 0 body.now) }
{
    let mut at = 0;
    let mut rest = body;
    while let [raw, ..] = rest {
        let behind = rest_after(rest, 1);
        note_labels_at(breaks, labels, at, raw, behind)?;
        at += 1;
        rest = behind;
    }
    Ok(())
}
