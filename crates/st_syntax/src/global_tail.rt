//! Steps of the parser in globals.
ghost use Rattle.std.specs.Prelude.{◌≡◌, if◌then◌else◌, Some, None, IfOk, option_map};
ghost use Rattle.st_grammar.specs.Grammar.{is_direct};
ghost use Rattle.st_grammar.specs.inner.Machine.{code, at_comma, at_item, at_value_end};
ghost use Rattle.st_grammar.specs.inner.Steps.{is_zero, is_array, tail_type, tail_place, tail_array, tail_items, tail_step, tail_end, at_tail, at_globals};
ghost use Rattle.st_syntax.specs.inner.Views.{tail_of, state_of};

use crate::state::{BegunGlobal, GlobalTail, State, TextSoFar};
use s7_base::{List, NoMemory};
use st_grammar::{Fixed, GrammarKind, Literal};
use st_tree::{RawGlobal, RawGlobalType, RawVar, StType, is_free, may_name_global, names_block};
use std::alloc::Global;

/// A token after `AT`.
fn tail_place(kind: GrammarKind) -> Option<GlobalTail>
    ensures { option_map tail_of result ≡ tail_place code kind }
{
    match kind {
        GrammarKind::Variable(var, _) => match var {
            RawVar::Direct(area, block, width, byte, bit) => Some(GlobalTail::AtColon(
                RawVar::Direct(area, block, width, byte, bit),
            )),
            RawVar::Name(_) => None,
        },
        _ => None,
    }
}

/// The name of a data block goes on with its bytes, another name with its type.
fn tail_type(name: &[u8], at: RawVar, kind: GrammarKind) -> Option<GlobalTail>
    ensures { option_map tail_of result ≡ tail_type code name.now at kind }
{
    match kind {
        GrammarKind::Fixed(Fixed::Type(ty)) => {
            if !is_free(name) {
                return None;
            }
            Some(GlobalTail::AtEnd(at, RawGlobalType::Plain(ty)))
        }
        GrammarKind::Fixed(Fixed::Array) => {
            if !names_block(name) {
                return None;
            }
            Some(GlobalTail::AtSquare(at))
        }
        _ => None,
    }
}

fn is_zero(number: u32) -> bool
    ensures { result ≡ is_zero number }
{
    number == 0
}

fn is_array(global_tail: &GlobalTail) -> bool
    ensures { result ≡ is_array code (tail_of global_tail.now) }
{
    match global_tail {
        GlobalTail::AtSquare(_)
        | GlobalTail::AtZero(_)
        | GlobalTail::AtDots(_)
        | GlobalTail::AtLast(_)
        | GlobalTail::AtClose(..)
        | GlobalTail::AtOf(..)
        | GlobalTail::AtByte(..) => true,
        _ => false,
    }
}

/// A place, if it may follow.
fn when(goes: bool, next: GlobalTail) -> Option<GlobalTail>
    ensures { result ≡ (if goes then Some next else None) }
{
    if goes {
        Some(next)
    } else {
        drop(next);
        None
    }
}

/// A token of `[0..k] OF BYTE`.
fn tail_array(global_tail: GlobalTail, kind: &GrammarKind) -> Option<GlobalTail>
    ensures { option_map tail_of result ≡ tail_array code (tail_of global_tail) kind.now }
{
    match global_tail {
        GlobalTail::AtSquare(at) => when(
            matches!(kind, GrammarKind::Fixed(Fixed::OpenSquare)),
            GlobalTail::AtZero(at),
        ),
        GlobalTail::AtZero(at) => match kind {
            GrammarKind::Literal(Literal::Decimal(number)) => when(
                is_zero(*number),
                GlobalTail::AtDots(at),
            ),
            _ => None,
        },
        GlobalTail::AtDots(at) => when(
            matches!(kind, GrammarKind::Fixed(Fixed::Dots)),
            GlobalTail::AtLast(at),
        ),
        GlobalTail::AtLast(at) => match kind {
            GrammarKind::Literal(Literal::Decimal(last)) => Some(GlobalTail::AtClose(at, *last)),
            _ => None,
        },
        GlobalTail::AtClose(at, last) => when(
            matches!(kind, GrammarKind::Fixed(Fixed::CloseSquare)),
            GlobalTail::AtOf(at, last),
        ),
        GlobalTail::AtOf(at, last) => when(
            matches!(kind, GrammarKind::Fixed(Fixed::Of)),
            GlobalTail::AtByte(at, last),
        ),
        GlobalTail::AtByte(at, last) => when(
            matches!(kind, GrammarKind::Fixed(Fixed::Type(StType::Byte))),
            GlobalTail::AtBecomes(at, last),
        ),
        other => {
            drop(other);
            None
        }
    }
}

/// A byte of an initial value, or the count of one.
fn tail_item(
    at: RawVar,
    last: u32,
    mut items: List<(u32, u8)>,
    kind: &GrammarKind,
) -> Result<Option<GlobalTail>, NoMemory>
    ensures { IfOk result (λ o. option_map tail_of o ≡ tail_items code (at_item at last items) kind.now) }
{
    match kind {
        GrammarKind::Literal(Literal::Byte(byte)) => {
            items.push((1, *byte))?;
            Ok(Some(GlobalTail::AtComma(at, last, items)))
        }
        GrammarKind::Literal(Literal::Decimal(count)) => Ok(Some(GlobalTail::AtCount(
            at, last, items, *count,
        ))),
        _ => Ok(None),
    }
}

/// The bracket after a byte that has a count.
fn tail_value_end(
    at: RawVar,
    last: u32,
    mut items: List<(u32, u8)>,
    item: (u32, u8),
    kind: &GrammarKind,
) -> Result<Option<GlobalTail>, NoMemory>
    ensures { IfOk result (λ o. option_map tail_of o ≡ tail_items code (at_value_end at last items item.0 item.1) kind.now) }
{
    let GrammarKind::Fixed(Fixed::Close) = kind else {
        return Ok(None);
    };
    items.push(item)?;
    Ok(Some(GlobalTail::AtComma(at, last, items)))
}

/// A token of the bytes in square brackets.
fn tail_items(
    alloc: Global,
    global_tail: GlobalTail,
    kind: &GrammarKind,
) -> Result<Option<GlobalTail>, NoMemory>
    ensures { IfOk result (λ o. option_map tail_of o ≡ tail_items code (tail_of global_tail) kind.now) }
{
    let next = match global_tail {
        GlobalTail::AtBecomes(at, last) => when(
            matches!(kind, GrammarKind::Fixed(Fixed::Becomes)),
            GlobalTail::AtOpen(at, last),
        ),
        GlobalTail::AtOpen(at, last) => when(
            matches!(kind, GrammarKind::Fixed(Fixed::OpenSquare)),
            GlobalTail::AtItem(at, last, List::new(alloc)),
        ),
        GlobalTail::AtItem(at, last, items) => return tail_item(at, last, items, kind),
        GlobalTail::AtCount(at, last, items, count) => when(
            matches!(kind, GrammarKind::Fixed(Fixed::Open)),
            GlobalTail::AtValue(at, last, items, count),
        ),
        GlobalTail::AtValue(at, last, items, count) => match kind {
            GrammarKind::Literal(Literal::Byte(byte)) => {
                Some(GlobalTail::AtValueEnd(at, last, items, count, *byte))
            }
            _ => None,
        },
        GlobalTail::AtValueEnd(at, last, items, count, byte) => {
            return tail_value_end(at, last, items, (count, byte), kind);
        }
        GlobalTail::AtComma(at, last, items) => tail_comma(at, last, items, kind),
        other => {
            drop(other);
            None
        }
    };
    Ok(next)
}

/// A token after a byte, or after a byte with its count.
fn tail_comma(
    at: RawVar,
    last: u32,
    items: List<(u32, u8)>,
    kind: &GrammarKind,
) -> Option<GlobalTail>
    ensures { option_map tail_of result ≡ tail_items code (at_comma at last items) kind.now }
{
    match kind {
        GrammarKind::Fixed(Fixed::Comma) => Some(GlobalTail::AtItem(at, last, items)),
        GrammarKind::Fixed(Fixed::CloseSquare) => Some(GlobalTail::AtEnd(
            at,
            RawGlobalType::Bytes(last, items),
        )),
        _ => None,
    }
}

/// A token of a global after its name, but the `;`.
fn tail_step(
    alloc: Global,
    name: &[u8],
    global_tail: GlobalTail,
    kind: GrammarKind,
) -> Result<Option<GlobalTail>, NoMemory>
    ensures { IfOk result (λ o. option_map tail_of o ≡ tail_step code name.now (tail_of global_tail) kind) }
{
    match global_tail {
        GlobalTail::AtWord => Ok(when(
            matches!(kind, GrammarKind::Fixed(Fixed::At)),
            GlobalTail::AtPlace,
        )),
        GlobalTail::AtPlace => Ok(tail_place(kind)),
        GlobalTail::AtColon(at) => Ok(when(
            matches!(kind, GrammarKind::Fixed(Fixed::Colon)),
            GlobalTail::AtType(at),
        )),
        GlobalTail::AtType(at) => Ok(tail_type(name, at, kind)),
        other => {
            if is_array(&other) {
                return Ok(tail_array(other, &kind));
            }
            tail_items(alloc, other, &kind)
        }
    }
}

/// A global ends.
fn tail_end(
    alloc: Global,
    begun: BegunGlobal,
    global_tail: GlobalTail,
) -> Result<Option<State>, NoMemory>
    ensures { IfOk result (λ o. option_map state_of o
        ≡ tail_end code begun.before begun.name begun.line (tail_of global_tail)) }
{
    let (at, ty) = match global_tail {
        GlobalTail::AtEnd(at, ty) => (at, ty),
        GlobalTail::AtBecomes(at, last) => (at, RawGlobalType::Bytes(last, List::new(alloc))),
        other => {
            drop(other);
            return Ok(None);
        }
    };
    let BegunGlobal {
        mut before,
        name,
        line,
    } = begun;
    before.push(RawGlobal { name, line, at, ty })?;
    Ok(Some(State::Globals(before)))
}

/// A token of a global after its name.
pub fn at_tail(
    alloc: Global,
    begun: BegunGlobal,
    global_tail: GlobalTail,
    kind: GrammarKind,
) -> Result<Option<State>, NoMemory>
    ensures { IfOk result (λ o. option_map state_of o
        ≡ at_tail code begun.before begun.name begun.line (tail_of global_tail) kind) }
{
    match kind {
        GrammarKind::Fixed(Fixed::Semicolon) => tail_end(alloc, begun, global_tail),
        other => match tail_step(alloc, begun.name.as_slice(), global_tail, other)? {
            Some(next) => Ok(Some(State::GlobalTail(begun, next))),
            None => Ok(None),
        },
    }
}

/// A token before the name of a global.
pub fn at_globals(alloc: Global, before: List<RawGlobal>, kind: GrammarKind) -> Option<State>
    ensures { option_map state_of result ≡ at_globals code before kind }
{
    match kind {
        GrammarKind::Variable(var, line) => match var {
            RawVar::Name(name) => {
                if !may_name_global(name.as_slice()) {
                    return None;
                }
                let begun = BegunGlobal { before, name, line };
                Some(State::GlobalTail(begun, GlobalTail::AtWord))
            }
            RawVar::Direct(..) => None,
        },
        GrammarKind::Fixed(Fixed::EndVar) => Some(State::Between(TextSoFar {
            globals: before,
            units: List::new(alloc),
        })),
        _ => None,
    }
}
