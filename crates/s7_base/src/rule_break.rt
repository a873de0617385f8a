//! Broken rules, and which of them is named.
ghost use Rattle.std.specs.Prelude.{◌≡◌, ◌++◌, OnOk};
ghost use Rattle.s7_base.specs.Broken.{rule_break, comes_before, first_of_all, rule_number, sooner};

use crate::list::List;
use crate::memory::NoMemory;
use crate::reason::{Line, Reason};

/// A broken rule, and the line on which it is broken.
#[derive(Clone, Copy, Debug, PartialEq, Eq)]
pub struct Break {
    pub line: Line,
    pub rule: Reason,
}

/// Notes a broken rule.
pub fn note(breaks: &mut List<Break>, line: Line, rule: Reason) -> Result<(), NoMemory>
    ensures { OnOk result (breaks.new ≡ breaks.old ++ rule_break line rule) }
{
    breaks.push(Break { line, rule })
}

fn rule_number(rule: Reason) -> u8
    ensures { result ≡ rule_number rule }
{
    match rule {
        Reason::BadToken => 1,
        Reason::BadStatement => 2,
        Reason::Unsupported(_) => 3,
        Reason::UnknownName => 4,
        Reason::UnknownBlock => 5,
        Reason::BadOperand => 6,
        Reason::BadAddress => 7,
        Reason::DuplicateBlock => 8,
        Reason::DuplicateName => 9,
        Reason::BadType => 10,
        Reason::TooLarge => 11,
        Reason::DuplicateLabel => 12,
        Reason::UnknownLabel => 13,
        Reason::BracketOpen => 14,
        Reason::BracketMissing => 15,
        Reason::TooManyBrackets => 16,
        Reason::BadJumpList => 17,
        Reason::TooManyInstructions => 18,
        Reason::TooManyParameters => 19,
        Reason::CallCycle => 20,
        Reason::CallTooDeep => 21,
        Reason::NoBlocks => 22,
        Reason::BadSyntax => 23,
        Reason::TooDeep => 24,
        Reason::TypeMismatch => 25,
    }
}

fn comes_before(a: Break, b: Break) -> bool
    ensures { result ≡ comes_before a b }
{
    a.line.0 < b.line.0 || a.line.0 == b.line.0 && rule_number(a.rule) < rule_number(b.rule)
}

/// The first of some broken rules, after one more is considered.
pub fn sooner(first: Option<Break>, other: Break) -> Option<Break>
    ensures { result ≡ sooner first other }
{
    match first {
        None => Some(other),
        Some(first) => {
            if comes_before(other, first) {
                Some(other)
            } else {
                Some(first)
            }
        }
    }
}

/// The first of some broken rules by line, then by number.
pub fn first_of_all(breaks: &[Break]) -> Option<Break>
    ensures { result ≡ first_of_all breaks.now }
{
    let mut first = None;
    for other in breaks {
        first = sooner(first, *other);
    }
    first
}
