//! Cuts a source text into pieces, and keeps those that are tokens.
ghost use Rattle.std.specs.Prelude.{◌≡◌, ◌-◌, length, take, drop, OnOk, ◌++◌};
ghost use Rattle.s7_base.specs.Tokens.{token_text, token_of, tokens_of};
ghost use Rattle.s7_base.specs.Answers.{Answers};
ghost use Rattle.stl_lexer.specs.inner.Found.{view, IsWithin};

use crate::piece::{Piece, is_blank, line_behind, piece_at, size_of};
use s7_base::{Line, List, NoMemory, Reason, Rejection, SmallText, Token, TokenKind, rest_after};
use std::alloc::Global;

/// The characters of a token, without the quotes.
fn token_text(kind: TokenKind, bytes: &[u8]) -> &[u8]
    ensures { result.now ≡ token_text kind bytes.now }
{
    match kind {
        TokenKind::Word | TokenKind::Sign => bytes,
        TokenKind::Quoted | TokenKind::Text => without_ends(bytes),
    }
}

fn without_ends(bytes: &[u8]) -> &[u8]
    ensures { result.now ≡ take (length bytes.now - 2) (drop 1 bytes.now) }
{
    match bytes {
        [_, inside @ .., _] => inside,
        _ => &[],
    }
}

/// Keeps the token that a piece at the front of `bytes` is, if it is one.
fn keep_token(
    alloc: Global,
    tokens: &mut List<Token>,
    piece: Piece,
    bytes: &[u8],
    line: u32,
    before: u8,
) -> Result<(), NoMemory>
    requires { IsWithin piece (length bytes.now) }
    ensures { OnOk result (tokens.new ≡ tokens.old ++ token_of (view piece) bytes.now line before) }
{
    let Piece::Token(kind, size) = piece else {
        return Ok(());
    };
    let text = SmallText::new(alloc, token_text(kind, &bytes[..size]))?;
    let glued = !is_blank(before);
    tokens.push(Token {
        kind,
        text,
        line: Line(line),
        glued,
    })
}

/// The tokens of a text, or the line of the first place where none begins.
pub fn tokens(alloc: Global, bytes: &[u8]) -> Result<List<Token>, Rejection>
    ensures { Answers result (tokens_of bytes.now) }
{
    let mut tokens = List::new(alloc);
    let mut rest = bytes;
    let mut line = 1;
    let mut before = b'\n';
    while !rest.is_empty() {
        let Some(piece) = piece_at(rest) else {
            return Err(Rejection::Refused(Line(line), Reason::BadToken));
        };
        let size = size_of(piece);
        keep_token(alloc, &mut tokens, piece, rest, line, before)?;
        line = line_behind(piece, line);
        before = rest[size - 1];
        rest = rest_after(rest, size);
    }
    Ok(tokens)
}
