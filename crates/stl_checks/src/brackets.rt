//! The rules of brackets.
ghost use Rattle.std.specs.Prelude.{◌≡◌, ◌++◌, IfOk, OnOk};
ghost use Rattle.stl_rules.specs.BodyRules.{brackets_at, brackets_from, label_closed, none_open, open_then};

use s7_base::{Break, Line, List, NoMemory, Reason, note, rest_after};
use stl_mnemonics::mnemonic_named;
use stl_statement_grammar::Mnemonic;
use stl_tree::RawInstr;

/// The most brackets that may be open.
const MOST_OPEN: usize = 7;

/// Notes the rule that is broken where brackets are open at a label, a jump, a call or an end.
#[tactic(auto, using(crate::proofs::Turns::end_closed, crate::proofs::Turns::end_open))]
fn note_open(breaks: &mut List<Break>, line: Line, count: usize) -> Result<(), NoMemory>
    ensures { OnOk result (breaks.new ≡ breaks.old ++ none_open line count) }
{
    if count == 0 {
        Ok(())
    } else {
        note(breaks, line, Reason::BracketOpen)
    }
}

/// Notes the rule of brackets that an instruction breaks before which this many brackets are open.
#[tactic(auto, using(crate::proofs::Turns::close_missing, crate::proofs::Turns::close_there))]
fn note_at(
    breaks: &mut List<Break>,
    line: Line,
    what: Option<Mnemonic>,
    count: usize,
) -> Result<(), NoMemory>
    ensures { OnOk result (breaks.new ≡ breaks.old ++ brackets_at line what count) }
{
    match what {
        Some(Mnemonic::Bracket(_)) if count >= MOST_OPEN => {
            note(breaks, line, Reason::TooManyBrackets)
        }
        Some(Mnemonic::Close) if count == 0 => note(breaks, line, Reason::BracketMissing),
        Some(Mnemonic::Jump(_)) | Some(Mnemonic::Loop) | Some(Mnemonic::JumpList) => {
            note_open(breaks, line, count)
        }
        Some(Mnemonic::BlockEnd) | Some(Mnemonic::BlockEndIf) => note_open(breaks, line, count),
        Some(Mnemonic::Call) | Some(Mnemonic::CallAlone) | Some(Mnemonic::CallIf) => {
            note_open(breaks, line, count)
        }
        _ => Ok(()),
    }
}

/// Notes the rule that is broken where a bracket is open at a label.
fn note_label(
    breaks: &mut List<Break>,
    line: Line,
    label: &Option<List<u8>>,
    count: usize,
) -> Result<(), NoMemory>
    ensures { OnOk result (breaks.new ≡ breaks.old ++ label_closed line label.now count) }
{
    match label {
        Some(_) => note_open(breaks, line, count),
        None => Ok(()),
    }
}

/// How many brackets are open after an instruction.
#[tactic(auto, using(crate::proofs::Turns::close_then))]
fn open_then(what: Option<Mnemonic>, count: usize) -> Result<usize, NoMemory>
    ensures { IfOk result (λ then. then ≡ open_then what count) }
{
    match what {
        Some(Mnemonic::Bracket(_)) => count.checked_add(1).ok_or(NoMemory),
        Some(Mnemonic::Close) => Ok(count.saturating_sub(1)),
        _ => Ok(count),
    }
}

/// Notes the rules of brackets that a body breaks, where the block ends on a line.
#[tactic(auto, using(crate::proofs::Lists::brackets_more))]
pub fn note_brackets(breaks: &mut List<Break>, end: Line, body: &[RawInstr]) -> Result<(), NoMemory>
    ensures { OnOk result (breaks.new ≡ breaks.old ++ brackets_from end 0 body.now) }
{
    let mut count = 0;
    let mut rest = body;
    while let [raw, ..] = rest {
        let what = mnemonic_named(raw.op.mnemonic.as_slice());
        note_label(breaks, raw.line, &raw.label, count)?;
        note_at(breaks, raw.line, what, count)?;
        count = open_then(what, count)?;
        rest = rest_after(rest, 1);
    }
    note_open(breaks, end, count)
}
