//! Cuts a text into pieces and keeps those that are tokens, as parts of the text: a parser reads them there
//! and copies no characters. `st_tokens` copies them.
ghost use Rattle.std.specs.Prelude.{◌≡◌, ◌≤◌, ◌+◌, ◌++◌, ◌&&◌, ◌==◌, length, drop, take, map, false, Ok, Err, IfSome, IfOk, OnOk, option_map};
ghost use Rattle.s7_base.specs.Tokens.{begins_with, line_size, line_at_end};
ghost use Rattle.s7_base.specs.Answers.{Answers, IfRefused};
ghost use Rattle.s7_base.specs.declared.reason.Rejection.TheVariants.{Refused};
ghost use Rattle.st_lexer.specs.Direct.{direct_at};
ghost use Rattle.st_lexer.specs.Literals.{type_at, base_at, literal_at};
ghost use Rattle.st_lexer.specs.Pieces.{view, cut_view, token_seen};
ghost use Rattle.st_tree.specs.Naming.{is_letter};
ghost use Rattle.st_lexer.specs.StTokens.{is_blank, is_sign, is_double_sign, comment_size, sign_piece, mark_piece, ranged_piece, number_piece, word_piece, direct_piece, other_piece, piece_at, piece_size, line_behind, token_of, cut_from, is_great, has_text, begins_with_bracket, great_from, first_bad, tokens_of, gap};
ghost use Rattle.st_lexer.specs.TokenGrammar.{line_past};
ghost use Rattle.st_tree.specs.declared.token.StKind.TheVariants as sort;

use crate::direct::direct_at;
use crate::literal::{Literal, is_in_range, literal_at, literal_to, type_before};
use crate::number::{Base, base_at, is_digit_to};
use crate::text::word_size;
use s7_base::{Line, List, NoMemory, Reason, Rejection, begins_with, front_of, rest_after};
use st_tree::{StKind, StToken};
use std::alloc::Global;

/// What a text begins with, and its size in bytes.
#[derive(Clone, Copy)]
pub enum Piece {
    /// A blank or a comment.
    Gap(usize),

    /// A token of this sort.
    Token(StKind, usize),
}

/// A token as a part of a text.
#[derive(Clone, Copy)]
pub struct Lexeme<'t> {
    pub kind: StKind,

    /// The characters of the token, a part of the text.
    pub text: &'t [u8],
    pub line: Line,
}

/// The tokens up to the end of a text or to where no piece begins, and the line of that place.
#[derive(Drop)]
pub struct Cut<'t> {
    pub tokens: Vec<Lexeme<'t>>,
    pub bad: Option<Line>,
}

fn is_blank(b: u8) -> bool
    ensures { result ≡ is_blank b }
{
    matches!(b, b' ' | b'\t' | b'\r' | b'\n')
}

fn is_letter(b: u8) -> bool
    ensures { result ≡ is_letter b }
{
    matches!(b, b'A'..=b'Z' | b'a'..=b'z' | b'_')
}

fn is_sign(b: u8) -> bool
    ensures { result ≡ is_sign b }
{
    b":;,()[]+-*/=<>&".contains(&b)
}

fn is_double_sign(a: u8, b: u8) -> bool
    ensures { result ≡ is_double_sign a b }
{
    matches!(
        (a, b),
        (b':', b'=') | (b'.', b'.') | (b'<', b'>') | (b'>', b'=') | (b'<', b'=')
    )
}

fn line_size(bytes: &[u8]) -> usize
    ensures size { result ≡ line_size bytes.now }
    ensures within { result ≤ length bytes.now }
{
    bytes.iter().take_while(|b| **b != b'\n').count()
}

fn closes_comment(first: u8, behind: &[u8]) -> bool
    ensures { result ≡ (first == 42 && begins_with 41 behind.now) }
{
    first == b'*' && begins_with(b')', behind)
}

/// How many bytes come up to the first `*)`, with it.
fn comment_size(bytes: &[u8]) -> Option<usize>
    ensures size { result ≡ comment_size bytes.now }
    ensures within { IfSome result (λ size. size ≤ length bytes.now) }
{
    let mut size = 0;
    let mut rest = bytes;
    while let [first, ..] = rest {
        let behind = rest_after(rest, 1);
        if closes_comment(*first, behind) {
            return Some(size + 2);
        }
        size += 1;
        rest = behind;
    }
    None
}

fn sign_piece(first: u8, rest: &[u8]) -> Option<Piece>
    ensures { option_map view result ≡ sign_piece first rest.now }
{
    match rest {
        [second, ..] if is_double_sign(first, *second) => Some(Piece::Token(StKind::Sign, 2)),
        _ if is_sign(first) => Some(Piece::Token(StKind::Sign, 1)),
        _ => None,
    }
}

fn comment_piece(rest: &[u8]) -> Option<Piece>
    ensures { option_map view result ≡ option_map (λ size. gap (size + 2)) (comment_size (drop 1 rest.now)) }
{
    match comment_size(rest_after(rest, 1)) {
        Some(size) => Some(Piece::Gap(size + 2)),
        None => None,
    }
}

fn mark_piece(first: u8, rest: &[u8]) -> Option<Piece>
    ensures { option_map view result ≡ mark_piece first rest.now }
{
    if first == b'(' && begins_with(b'*', rest) {
        comment_piece(rest)
    } else if first == b'/' && begins_with(b'/', rest) {
        Some(Piece::Gap(line_size(rest) + 1))
    } else {
        sign_piece(first, rest)
    }
}

/// A literal whose type has its number, as a piece.
fn ranged_piece(literal: Option<Literal>) -> Option<Piece>
    ensures { option_map view result ≡ ranged_piece literal }
{
    match literal {
        Some(literal) if is_in_range(literal) => Some(Piece::Token(StKind::Literal, literal.size)),
        _ => None,
    }
}

/// A number as a piece; whether a decimal is too great depends on its neighbours.
fn number_piece(bytes: &[u8]) -> Option<Piece>
    ensures { option_map view result ≡ number_piece (base_at bytes.now) (literal_at bytes.now) }
{
    let base = base_at(bytes);
    match (base, literal_to(base, bytes)) {
        (Base::Ten, Some(literal)) => Some(Piece::Token(StKind::Literal, literal.size)),
        (_, literal) => ranged_piece(literal),
    }
}

fn word_piece(bytes: &[u8]) -> Option<Piece>
    ensures { option_map view result ≡ word_piece (type_at bytes.now) bytes.now }
{
    let size = word_size(bytes);
    match type_before(size, bytes) {
        Some(_) => ranged_piece(literal_at(bytes)),
        None => Some(Piece::Token(StKind::Word, size)),
    }
}

fn direct_piece(bytes: &[u8]) -> Option<Piece>
    ensures { option_map view result ≡ direct_piece (direct_at bytes.now) }
{
    let direct = direct_at(bytes)?;
    Some(Piece::Token(StKind::Direct, direct.size))
}

/// A piece that begins with a mark: a direct variable, a comment or a sign.
fn other_piece(bytes: &[u8]) -> Option<Piece>
    ensures { option_map view result ≡ other_piece bytes.now }
{
    match bytes {
        [b'%', ..] => direct_piece(bytes),
        [first, rest @ ..] => mark_piece(*first, rest),
        [] => None,
    }
}

fn piece_at(bytes: &[u8]) -> Option<Piece>
    ensures { option_map view result ≡ piece_at bytes.now }
{
    match bytes {
        [] => None,
        [first, ..] if is_blank(*first) => Some(Piece::Gap(1)),
        [first, ..] if is_letter(*first) => word_piece(bytes),
        [first, ..] if is_digit_to(Base::Ten, *first) => number_piece(bytes),
        _ => other_piece(bytes),
    }
}

fn size_of(piece: Piece) -> usize
    ensures { result ≡ piece_size (view piece) }
{
    match piece {
        Piece::Gap(size) | Piece::Token(_, size) => size,
    }
}

fn line_behind(b: u8, line: u32) -> u32
    ensures { result ≡ line_behind b line }
{
    if b == b'\n' {
        line.saturating_add(1)
    } else {
        line
    }
}

/// The line after some bytes.
fn line_past(start: u32, bytes: &[u8]) -> u32
    ensures { result ≡ line_past start bytes.now }
{
    let mut line = start;
    for b in bytes {
        line = line_behind(*b, line);
    }
    line
}

/// Keeps the token that a piece at the front of `bytes` is, if it is one.
fn keep_token<'t>(
    tokens: &mut Vec<Lexeme<'t>>,
    piece: Piece,
    bytes: &'t [u8],
    line: u32,
) -> Result<(), NoMemory>
    ensures { OnOk result (map token_seen tokens.new.items
        ≡ map token_seen tokens.old.items ++ token_of (view piece) bytes.now line) }
{
    let Piece::Token(kind, size) = piece else {
        return Ok(());
    };
    tokens.push(Lexeme {
        kind,
        text: front_of(bytes, size),
        line: Line(line),
    })?;
    Ok(())
}

/// Cuts a text up to its end or to where no piece begins.
fn cut_text<'t>(alloc: Global, bytes: &'t [u8]) -> Result<Cut<'t>, NoMemory>
    ensures { IfOk result (λ cut. cut_view cut ≡ cut_from 0 1 bytes.now) }
{
    let mut tokens = Vec::new(alloc);
    let mut rest = bytes;
    let mut line = 1;
    while !rest.is_empty() {
        let Some(piece) = piece_at(rest) else {
            return Ok(Cut {
                tokens,
                bad: Some(Line(line)),
            });
        };
        let size = size_of(piece);
        keep_token(&mut tokens, piece, rest, line)?;
        line = line_past(line, front_of(rest, size));
        rest = rest_after(rest, size);
    }
    Ok(Cut { tokens, bad: None })
}

/// Whether the text is that of a literal outside its type's range.
fn is_great_literal(text: &[u8]) -> bool
    ensures { result ≡ is_great sort.Literal (literal_at text.now) }
{
    match literal_at(text) {
        Some(literal) => !is_in_range(literal),
        None => false,
    }
}

/// Whether the token is a literal outside its type's range.
fn is_great(token: &Lexeme) -> bool
    ensures { result ≡ is_great token.now.kind (literal_at token.now.text.now) }
{
    match token.kind {
        StKind::Literal => is_great_literal(token.text),
        _ => false,
    }
}

fn has_text(text: &[u8], token: &Lexeme) -> bool
    ensures { result ≡ has_text text.now (token_seen token.now) }
{
    token.text == text
}

fn begins_with_bracket(tokens: &[Lexeme]) -> bool
    ensures { result ≡ begins_with_bracket (map token_seen tokens.now) }
{
    match tokens {
        [first, ..] => has_text(b"(", first),
        [] => false,
    }
}

/// The line of the first decimal that is too great at its place.
fn great_line(tokens: &[Lexeme]) -> Option<Line>
    ensures { result ≡ great_from false (map token_seen tokens.now) }
{
    let mut behind_dots = false;
    let mut rest = tokens;
    while let [first, ..] = rest {
        let behind = rest_after(rest, 1);
        if is_great(first) && !behind_dots && !begins_with_bracket(behind) {
            return Some(first.line);
        }
        behind_dots = has_text(b"..", first);
        rest = behind;
    }
    None
}

fn first_bad(great: Option<Line>, place: Option<Line>) -> Option<Line>
    ensures { result ≡ first_bad great place }
{
    great.or(place)
}

/// The tokens of a text as parts of it, or the line of its first bad token.
pub fn lexemes<'t>(alloc: Global, bytes: &'t [u8]) -> Result<Vec<Lexeme<'t>>, Rejection>
    ensures tokens { IfOk result (λ found. tokens_of bytes.now ≡ Ok (map token_seen found.items)) }
    ensures refused { IfRefused result (λ line reason. tokens_of bytes.now ≡ Err (Refused line reason)) }
{
    let Cut { tokens, bad } = cut_text(alloc, bytes)?;
    match first_bad(great_line(tokens.as_slice()), bad) {
        Some(line) => Err(Rejection::Refused(line, Reason::BadToken)),
        None => Ok(tokens),
    }
}

/// The tokens with their own characters.
fn copies(alloc: Global, lexemes: &[Lexeme]) -> Result<List<StToken>, NoMemory>
    ensures { IfOk result (λ tokens. tokens ≡ map token_seen lexemes.now) }
{
    let mut tokens = List::new(alloc);
    for lexeme in lexemes {
        tokens.push(StToken {
            kind: lexeme.kind,
            text: List::from_vec(Vec::from_slice(alloc, lexeme.text)?),
            line: lexeme.line,
        })?;
    }
    Ok(tokens)
}

/// The tokens of a text, or the line of its first bad token.
pub fn st_tokens(alloc: Global, bytes: &[u8]) -> Result<List<StToken>, Rejection>
    ensures { Answers result (tokens_of bytes.now) }
{
    let found = lexemes(alloc, bytes)?;
    Ok(copies(alloc, found.as_slice())?)
}

/// The line of the end of a text.
pub fn end_line(bytes: &[u8]) -> Line
    ensures { result ≡ line_at_end bytes.now }
{
    Line(line_past(1, bytes))
}
