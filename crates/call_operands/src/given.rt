//! What an operand gives to a formal.
ghost use Rattle.std.specs.Prelude.{◌≡◌, if◌then◌else◌};
ghost use Rattle.s7_base.specs.declared.reason.Reason.TheVariants.{BadAddress, BadOperand};
ghost use Rattle.stl_rules.specs.Calls.{given_to, is_same_width, or_missing};
ghost use Rattle.stl_rules.specs.declared.resolved_operand.ResolvedOperand.TheVariants as behind;
ghost use Rattle.stl_tree.specs.Accepted.{is_written, takes_constants};
ghost use Rattle.stl_tree.specs.Accumulators.{part};

use s7_base::{Reason, Width, low_byte, low_word};
use stl_rules::ResolvedOperand;
use stl_tree::{Actual, Constant, Formal, Mode, Operand};
use symbol_layout::{fits_width, value_in};

/// Whether an operand is written, and not found through a pointer.
fn is_written(operand: Operand) -> bool
    ensures { result ≡ is_written operand }
{
    match operand {
        Operand::Direct(_, _, _) | Operand::Opened(_, _, _) | Operand::Formal(_) => true,
        Operand::ByMemory(_, _, _) | Operand::ByRegister(_, _, _) | Operand::Crossing(_, _) => {
            false
        }
    }
}

/// Whether a constant may be given to a formal of a mode: to an input alone.
fn takes_constants(mode: Mode) -> bool
    ensures { result ≡ takes_constants mode }
{
    match mode {
        Mode::Input => true,
        Mode::Output | Mode::InOut => false,
    }
}

fn is_same_width(a: Width, b: Width) -> bool
    ensures { result ≡ is_same_width a b }
{
    a == b
}

/// The low bits of a number, as many as a width has.
fn part(width: Width, value: u32) -> u32
    ensures { result ≡ part width value }
{
    match width {
        Width::Bit => value % 2,
        Width::Byte => u32::from(low_byte(value)),
        Width::Word => u32::from(low_word(value)),
        Width::Dword => value,
    }
}

/// What a constant gives to a formal, or the rule that is broken.
fn given_constant(formal: &Formal, constant: Constant) -> Result<Actual, Reason>
    ensures { result ≡ given_to formal.now (behind.Constant constant) }
{
    if takes_constants(formal.mode) && fits_width(formal.width, constant) {
        let value = value_in(formal.width, constant);
        Ok(Actual::Constant(part(formal.width, value)))
    } else {
        Err(Reason::BadOperand)
    }
}

/// `BadAddress` where the width is right, or else `BadOperand`.
fn outside_rule(is_right: bool) -> Reason
    ensures { result ≡ (if is_right then BadAddress else BadOperand) }
{
    if is_right {
        Reason::BadAddress
    } else {
        Reason::BadOperand
    }
}

/// What a resolved operand gives to a formal, or the rule that is broken.
pub fn given_to(formal: &Formal, given: ResolvedOperand) -> Result<Actual, Reason>
    ensures { result ≡ given_to formal.now given }
{
    match given {
        ResolvedOperand::Constant(constant) => given_constant(formal, constant),
        ResolvedOperand::At(operand, width) => {
            if is_written(operand) && is_same_width(width, formal.width) {
                Ok(Actual::At(operand))
            } else {
                Err(Reason::BadOperand)
            }
        }
        ResolvedOperand::Outside(_, width) => {
            Err(outside_rule(is_same_width(width, formal.width)))
        }
        ResolvedOperand::NoPointer => Err(outside_rule(
            takes_constants(formal.mode) && is_same_width(Width::Dword, formal.width),
        )),
        ResolvedOperand::Unknown => Err(Reason::UnknownName),
        ResolvedOperand::Unjudged => Ok(Actual::Missing),
        _ => Err(Reason::BadOperand),
    }
}

/// What is given, or nothing where a rule is broken.
pub fn or_missing(given: Result<Actual, Reason>) -> Actual
    ensures { result ≡ or_missing given }
{
    match given {
        Ok(actual) => actual,
        Err(_) => Actual::Missing,
    }
}
