//! Steps of the parser in units.
ghost use Rattle.std.specs.Prelude.{◌≡◌, IfOk, option_map};
ghost use Rattle.st_grammar.specs.Grammar.{is_formal_type};
ghost use Rattle.st_grammar.specs.inner.Machine.{code, add_unit, between, inside, local_end};
ghost use Rattle.st_grammar.specs.inner.Steps.{at_between, at_start, at_heading, may_name, may_type, section_end, at_section, at_typing, ends, leave, at_inside, at_formals_done, at_opened, next, step as body_step};
ghost use Rattle.st_statement_parser.specs.inner.BodyStates.{body_state_of, place_of, stack_of};
ghost use Rattle.st_syntax.specs.inner.Views.{
  begun_unit_of,
  section_kind_of,
  state_of,
  text_so_far_of,
  typing_of,
  typing_step,
};

use crate::global_tail::{at_globals, at_tail};
use crate::state::{BegunSection, BegunUnit, DeclaredUnit, SectionKind, State, TextSoFar, Typing};
use s7_base::{Line, List, NoMemory};
use st_grammar::{Fixed, GrammarKind, Heading, Lead};
use st_statement_parser::{BodyState, step};
use st_tree::{RawLocal, RawPou, RawStmt, RawVar, StType, is_free, may_name_local, may_name_unit};
use std::alloc::Global;

fn at_between(text: TextSoFar, kind: GrammarKind) -> Option<State>
    ensures { option_map state_of result ≡ at_between code (text_so_far_of text) kind }
{
    match kind {
        GrammarKind::Lead(Lead::Program, line) => Some(State::Heading(text, true, line)),
        GrammarKind::Lead(Lead::Function, line) => Some(State::Heading(text, false, line)),
        GrammarKind::Fixed(Fixed::End) => Some(State::Over(text)),
        _ => None,
    }
}

fn at_start(alloc: Global, kind: GrammarKind) -> Option<State>
    ensures { option_map state_of result ≡ at_start code kind }
{
    match kind {
        GrammarKind::Fixed(Fixed::VarGlobal) => Some(State::Globals(List::new(alloc))),
        other => {
            let text = TextSoFar {
                globals: List::new(alloc),
                units: List::new(alloc),
            };
            at_between(text, other)
        }
    }
}

/// The name of a unit.
fn at_heading(text: TextSoFar, program: bool, line: Line, kind: GrammarKind) -> Option<State>
    ensures { option_map state_of result ≡ at_heading code (text_so_far_of text) program line kind }
{
    match kind {
        GrammarKind::Variable(RawVar::Name(name), _) => {
            if !may_name_unit(name.as_slice()) {
                return None;
            }
            let head = Heading {
                program,
                name,
                line,
            };
            Some(State::Opened(BegunUnit { text, head }))
        }
        _ => None,
    }
}

fn may_name(which: &SectionKind, name: &[u8]) -> bool
    ensures { result ≡ may_name code (section_kind_of which.now) name.now }
{
    match which {
        SectionKind::Formals => is_free(name),
        SectionKind::Temps(_) => may_name_local(name),
    }
}

/// Whether a formal or a local may have this type; no formal may be a LINT.
fn may_type(which: &SectionKind, ty: StType) -> bool
    ensures { result ≡ may_type code (section_kind_of which.now) ty }
{
    match which {
        SectionKind::Formals => !matches!(ty, StType::Lint),
        SectionKind::Temps(_) => true,
    }
}

fn section_end(alloc: Global, section: BegunSection) -> State
    ensures { state_of result
        ≡ section_end code (begun_unit_of section.unit) (section_kind_of section.which) section.done }
{
    let BegunSection { unit, which, done } = section;
    match which {
        SectionKind::Formals => State::FormalsDone(unit, done),
        SectionKind::Temps(formals) => {
            let declared = DeclaredUnit {
                begun: unit,
                formals,
                locals: done,
            };
            State::Inside(declared, BodyState::new(alloc))
        }
    }
}

/// A token before the name of a formal or a local.
fn at_section(alloc: Global, section: BegunSection, kind: GrammarKind) -> Option<State>
    ensures { option_map state_of result
        ≡ at_section code (begun_unit_of section.unit) (section_kind_of section.which) section.done kind }
{
    match kind {
        GrammarKind::Variable(var, line) => match var {
            RawVar::Name(name) => {
                if !may_name(&section.which, name.as_slice()) {
                    return None;
                }
                Some(State::Typing(section, name, line, Typing::Colon))
            }
            RawVar::Direct(..) => None,
        },
        GrammarKind::Fixed(Fixed::EndVar) => Some(section_end(alloc, section)),
        _ => None,
    }
}

/// A token of a formal or a local after its name, but the `;`.
fn typing_step(which: &SectionKind, typing: Typing, kind: &GrammarKind) -> Option<Typing>
    ensures { option_map typing_of result ≡ typing_step (section_kind_of which.now) (typing_of typing) kind.now }
{
    match typing {
        Typing::Colon => match kind {
            GrammarKind::Fixed(Fixed::Colon) => Some(Typing::Type),
            _ => None,
        },
        Typing::Type => match kind {
            GrammarKind::Fixed(Fixed::Type(ty)) => {
                if !may_type(which, *ty) {
                    return None;
                }
                Some(Typing::End(*ty))
            }
            _ => None,
        },
        Typing::End(_) => None,
    }
}

/// The `;` of a formal or a local.
fn at_typing_end(
    mut section: BegunSection,
    local: RawLocal,
    kind: &GrammarKind,
) -> Result<Option<State>, NoMemory>
    ensures { IfOk result (λ o. option_map state_of o
        ≡ at_typing code (begun_unit_of section.unit) (section_kind_of section.which) section.done
        local.name local.line (local_end local.ty) kind.now) }
{
    let GrammarKind::Fixed(Fixed::Semicolon) = kind else {
        return Ok(None);
    };
    section.done.push(local)?;
    Ok(Some(State::Section(section)))
}

/// A token of a formal or a local after its name.
fn at_typing(
    section: BegunSection,
    name: List<u8>,
    line: Line,
    typing: Typing,
    kind: GrammarKind,
) -> Result<Option<State>, NoMemory>
    ensures { IfOk result (λ o. option_map state_of o
        ≡ at_typing code (begun_unit_of section.unit) (section_kind_of section.which) section.done name line
        (typing_of typing) kind) }
{
    if let Typing::End(ty) = typing {
        return at_typing_end(section, RawLocal { name, line, ty }, &kind);
    }
    let next = typing_step(&section.which, typing, &kind);
    drop(kind);
    match next {
        Some(next) => Ok(Some(State::Typing(section, name, line, next))),
        None => Ok(None),
    }
}

fn ends(program: bool, other: bool) -> bool
    ensures { result ≡ ends program other }
{
    program == other
}

/// The text with one more unit.
fn with_unit(unit: DeclaredUnit, body: List<RawStmt>) -> Result<TextSoFar, NoMemory>
    ensures { IfOk result (λ text. text_so_far_of text
        ≡ record {
          globals = unit.begun.text.globals;
          units = add_unit code unit.begun.text.units unit.begun.head unit.formals unit.locals body;
        }) }
{
    let DeclaredUnit {
        begun,
        formals,
        locals,
    } = unit;
    let BegunUnit { mut text, head } = begun;
    text.units.push(RawPou {
        program: head.program,
        name: head.name,
        line: head.line,
        formals,
        locals,
        body,
    })?;
    Ok(text)
}

/// After a unit, if it can end with these statements.
fn between(unit: DeclaredUnit, body: Option<List<RawStmt>>) -> Result<Option<State>, NoMemory>
    ensures { IfOk result (λ o. option_map state_of o
        ≡ option_map (λ body. between (record {
          globals = unit.begun.text.globals;
          units = add_unit code unit.begun.text.units unit.begun.head unit.formals unit.locals body;
        })) body) }
{
    match body {
        Some(body) => Ok(Some(State::Between(with_unit(unit, body)?))),
        None => Ok(None),
    }
}

/// The end word of a program, or that of a function.
fn leave(program: bool, unit: DeclaredUnit, at: BodyState) -> Result<Option<State>, NoMemory>
    ensures { IfOk result (λ o. option_map state_of o
        ≡ leave code program (begun_unit_of unit.begun) unit.formals unit.locals
        (stack_of at.frames) (place_of at.place)) }
{
    let body = at.into_body();
    if ends(program, unit.begun.head.program) {
        return between(unit, body);
    }
    drop(body);
    drop(unit);
    Ok(None)
}

/// The statements after one more token; `None` where it cannot follow.
fn body_after(
    alloc: Global,
    mut at: BodyState,
    kind: GrammarKind,
) -> Result<Option<BodyState>, NoMemory>
    ensures { IfOk result (λ o. option_map body_state_of o ≡ body_step code (body_state_of at) kind) }
{
    match step(alloc, &mut at, kind) {
        Ok(true) => Ok(Some(at)),
        Ok(false) => {
            drop(at);
            Ok(None)
        }
        Err(no_memory) => {
            drop(at);
            Err(no_memory)
        }
    }
}

/// In the statements of a unit, where they can go on.
fn inside(unit: DeclaredUnit, to: Option<BodyState>) -> Option<State>
    ensures { option_map state_of result
        ≡ option_map (λ at. inside (begun_unit_of unit.begun) unit.formals unit.locals at)
        (option_map body_state_of to) }
{
    match to {
        Some(to) => Some(State::Inside(unit, to)),
        None => None,
    }
}

fn at_inside(
    alloc: Global,
    unit: DeclaredUnit,
    at: BodyState,
    kind: GrammarKind,
) -> Result<Option<State>, NoMemory>
    ensures { IfOk result (λ o. option_map state_of o
        ≡ at_inside code (begun_unit_of unit.begun) unit.formals unit.locals (body_state_of at) kind) }
{
    match kind {
        GrammarKind::Fixed(Fixed::EndProgram) => leave(true, unit, at),
        GrammarKind::Fixed(Fixed::EndFunction) => leave(false, unit, at),
        other => match body_after(alloc, at, other) {
            Ok(to) => Ok(inside(unit, to)),
            Err(no_memory) => {
                drop(unit);
                Err(no_memory)
            }
        },
    }
}

/// A token after the formals of a unit.
fn at_formals_done(
    alloc: Global,
    unit: BegunUnit,
    formals: List<RawLocal>,
    kind: GrammarKind,
) -> Result<Option<State>, NoMemory>
    ensures { IfOk result (λ o. option_map state_of o ≡ at_formals_done code (begun_unit_of unit) formals kind) }
{
    match kind {
        GrammarKind::Fixed(Fixed::VarTemp) => Ok(Some(State::Section(BegunSection {
            unit,
            which: SectionKind::Temps(formals),
            done: List::new(alloc),
        }))),
        other => {
            let declared = DeclaredUnit {
                begun: unit,
                formals,
                locals: List::new(alloc),
            };
            at_inside(alloc, declared, BodyState::new(alloc), other)
        }
    }
}

/// A token after the name of a unit.
fn at_opened(alloc: Global, unit: BegunUnit, kind: GrammarKind) -> Result<Option<State>, NoMemory>
    ensures { IfOk result (λ o. option_map state_of o ≡ at_opened code (begun_unit_of unit) kind) }
{
    match kind {
        GrammarKind::Fixed(Fixed::VarInOut) => {
            if unit.head.program {
                return Ok(None);
            }
            Ok(Some(State::Section(BegunSection {
                unit,
                which: SectionKind::Formals,
                done: List::new(alloc),
            })))
        }
        other => at_formals_done(alloc, unit, List::new(alloc), other),
    }
}

/// One token of a text; `None` where it cannot follow.
pub fn next(alloc: Global, state: State, kind: GrammarKind) -> Result<Option<State>, NoMemory>
    ensures { IfOk result (λ o. option_map state_of o ≡ next code (state_of state) kind) }
{
    match state {
        State::Start => Ok(at_start(alloc, kind)),
        State::Globals(done) => Ok(at_globals(alloc, done, kind)),
        State::GlobalTail(begun, global_tail) => at_tail(alloc, begun, global_tail, kind),
        State::Between(text) => Ok(at_between(text, kind)),
        State::Heading(text, program, line) => Ok(at_heading(text, program, line, kind)),
        State::Opened(unit) => at_opened(alloc, unit, kind),
        State::FormalsDone(unit, formals) => at_formals_done(alloc, unit, formals, kind),
        State::Section(section) => Ok(at_section(alloc, section, kind)),
        State::Typing(section, name, line, typing) => at_typing(section, name, line, typing, kind),
        State::Inside(unit, at) => at_inside(alloc, unit, at, kind),
        State::Over(_) => Ok(None),
    }
}
