//! Judges the syntax of a text: its tree before names are looked up, or its first wrong token.
ghost use Rattle.std.specs.Prelude.{◌≡◌, nat_lt, map, Some, Err, IfOk, option_map};
ghost use Rattle.s7_base.specs.declared.reason.Rejection.TheVariants.{Refused};
ghost use Rattle.s7_base.specs.Answers.{IfRefused};
ghost use Rattle.st_grammar.specs.inner.Judge.{
  after_token,
  judge_tokens,
  state_or_refusal,
  level_reached,
  text_in,
  tree_at,
  verdict,
};
ghost use Rattle.st_grammar.specs.Kinds.{kind_of};
ghost use Rattle.st_tree.specs.Depth.{deepest};
ghost use Rattle.st_lexer.specs.Pieces.{token_seen};
ghost use Rattle.st_syntax.specs.declared.state.State.TheVariants as state;
ghost use Rattle.st_grammar.specs.Syntax.{all_lined};
ghost use Rattle.st_syntax.specs.inner.StateView.{leads_to, state_view, HasText, JudgedIs};
ghost use Rattle.st_syntax.specs.inner.Views.{text_so_far_of};

use crate::state::{State, TextSoFar};
use crate::unit::next;
use s7_base::{Line, NoMemory, Reason, Rejection};
use st_grammar::{Fixed, GrammarKind};
use st_lexer::{Lexeme, end_line, lexemes, rest_after};
use st_statement_parser::{is_deep_at, step};
use st_token_kinds::kind_of;
use st_tree::RawSt;
use std::alloc::Global;
use std::mem::replace;

/// Whether the last token made a level above the greatest.
#[tactic(auto, unfolding(crate::specs::inner::StateView::state_view, st_grammar::specs::inner::Judge::level_reached))]
fn is_deep(state: &State) -> bool
    ensures { result ≡ nat_lt deepest (level_reached (state_view state.now)) }
{
    match state {
        State::Inside(_, at) => is_deep_at(at),
        _ => false,
    }
}

/// One token of a text: whether it can follow, and if it can, the state after it. Inside of statements, where
/// most of a text is, the state is changed in its place.
#[tactic(auto, unfolding(crate::specs::inner::StateView::state_view, st_grammar::specs::inner::Judge::after_token))]
fn after_token(alloc: Global, state: &mut State, kind: GrammarKind) -> Result<bool, NoMemory>
    ensures { IfOk result (λ goes. leads_to goes state.new ≡ after_token (state_view state.old) kind) }
{
    let kind = match state {
        State::Inside(_, at) => match kind {
            GrammarKind::Fixed(Fixed::EndProgram) => GrammarKind::Fixed(Fixed::EndProgram),
            GrammarKind::Fixed(Fixed::EndFunction) => GrammarKind::Fixed(Fixed::EndFunction),
            other => return step(alloc, at, other),
        },
        _ => kind,
    };
    let Some(to) = next(alloc, replace(state, State::Start), kind)? else {
        return Ok(false);
    };
    drop(replace(state, to));
    Ok(true)
}

/// Takes one more token; why the text is refused, if it is.
fn advance(alloc: Global, state: &mut State, kind: GrammarKind, line: Line) -> Option<Rejection>
    ensures { JudgedIs (state_view state.new) result (state_or_refusal (after_token (state_view state.old) kind) line) }
{
    match after_token(alloc, state, kind) {
        Ok(true) => {
            if is_deep(state) {
                Some(Rejection::Refused(line, Reason::TooDeep))
            } else {
                None
            }
        }
        Ok(false) => Some(Rejection::Refused(line, Reason::BadSyntax)),
        Err(_) => Some(Rejection::NoMemory),
    }
}

fn advance_token(alloc: Global, state: &mut State, token: &Lexeme) -> Option<Rejection>
    ensures { JudgedIs (state_view state.new) result
        (state_or_refusal (after_token (state_view state.old) (kind_of (token_seen token.now))) token.now.line) }
{
    match kind_of(alloc, token) {
        Ok(kind) => advance(alloc, state, kind, token.line),
        Err(_) => Some(Rejection::NoMemory),
    }
}

/// The state after all tokens of a text that ends on a line, and why the text is refused, if it is.
fn judge_tokens(alloc: Global, state: &mut State, tokens: &[Lexeme], end: Line) -> Option<Rejection>
    ensures { JudgedIs (state_view state.new) result
        (judge_tokens (state_view state.old) (all_lined (map token_seen tokens.now) end)) }
{
    let mut rest = tokens;
    while let [first, ..] = rest {
        let refusal = advance_token(alloc, state, first);
        if refusal.is_some() {
            return refusal;
        }
        rest = rest_after(rest, 1);
    }
    advance(alloc, state, GrammarKind::Fixed(Fixed::End), end)
}

/// The whole text, if the state is after its end. The parts of another state are given up in calls of
/// their own, since they are too many for one function's borrow check.
#[tactic(auto, unfolding(crate::specs::inner::StateView::state_view))]
fn finish(state: State) -> Option<TextSoFar>
    ensures { option_map text_so_far_of result ≡ text_in (state_view state) }
{
    match state {
        State::Start => {}
        State::Globals(globals) => drop(globals),
        State::GlobalTail(begun, global_tail) => {
            drop(begun);
            drop(global_tail);
        }
        State::Between(text) | State::Heading(text, _, _) => drop(text),
        State::Opened(unit) => drop(unit),
        State::FormalsDone(unit, formals) => drop((unit, formals)),
        State::Section(section) => drop(section),
        State::Typing(section, name, _, _) => drop((section, name)),
        State::Inside(unit, at) => {
            drop(unit);
            drop(at);
        }
        State::Over(text) => return Some(text),
    }
    None
}

/// The whole text of these tokens, or why it is refused.
fn whole(alloc: Global, tokens: &[Lexeme], end: Line) -> Result<TextSoFar, Rejection>
    ensures text { IfOk result (λ text. HasText
        (judge_tokens (state_view state.Start) (all_lined (map token_seen tokens.now) end)) (text_so_far_of text)) }
    ensures refused { IfRefused result (λ line reason.
        judge_tokens (state_view state.Start) (all_lined (map token_seen tokens.now) end) ≡ Err (Refused line reason)) }
{
    let mut state = State::Start;
    let refusal = judge_tokens(alloc, &mut state, tokens, end);
    let text = finish(state);
    if let Some(refused) = refusal {
        return Err(refused);
    }
    match text {
        Some(text) => Ok(text),
        None => unreachable!(),
    }
}

/// The tree of a text before its names are looked up, or the line and the reason of its first broken
/// rule of syntax or nesting, as the pass over its tokens judges it.
pub fn syntax(alloc: Global, bytes: &[u8]) -> Result<RawSt, Rejection>
    ensures tree { IfOk result (λ raw. tree_at (verdict bytes.now) ≡ Some raw) }
    ensures refused { IfRefused result (λ line reason. verdict bytes.now ≡ Err (Refused line reason)) }
{
    let tokens = match lexemes(alloc, bytes) {
        Ok(tokens) => tokens,
        Err(refused) => return Err(refused),
    };
    match whole(alloc, tokens.as_slice(), end_line(bytes)) {
        Ok(TextSoFar { globals, units }) => Ok(RawSt {
            globals,
            pous: units,
        }),
        Err(refused) => Err(refused),
    }
}
