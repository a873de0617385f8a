//! Finds the piece with which a text begins.
ghost use Rattle.std.specs.Prelude.{◌≡◌, ◌≤◌, ◌+◌, ◌&&◌, length, take, drop, codes, not, ◌==◌, ◌||◌, ◌<◌, IfSome, option_map};
ghost use Rattle.s7_base.specs.Tokens.{is_blank, is_word_byte, is_sign, is_double_sign, begins_with, after_blanks, line_size, closed_size, word_piece, sign_piece, comment_or_sign, mark_piece, piece_at, piece_size, token, gap, line_behind};
ghost use Rattle.std.specs.List.{prefix_len};
ghost use Rattle.std.specs.Str.{str_eq_ignore_ascii_case};
ghost use Rattle.stl_lexer.specs.inner.Found.{view, IsWithin};

use s7_base::{TokenKind, begins_with, is_same_word, is_word_byte, rest_after};

/// What a text begins with, and its size in bytes.
#[derive(Clone, Copy)]
pub enum Piece {
    /// The end of a line, one byte.
    LineEnd,

    /// A blank, a comment, an attribute or a title.
    Gap(usize),

    /// A token of this kind.
    Token(TokenKind, usize),
}

/// Whether a byte is a space, TAB or CR.
pub fn is_blank(b: u8) -> bool
    ensures { result ≡ is_blank b }
{
    b == b' ' || b == b'\t' || b == b'\r'
}

fn is_sign(b: u8) -> bool
    ensures { result ≡ is_sign b }
{
    b":;,.()[]=+-*/<>#".contains(&b)
}

fn is_double_sign(a: u8, b: u8) -> bool
    ensures { result ≡ is_double_sign a b }
{
    matches!(
        (a, b),
        (b':', b'=') | (b'.', b'.') | (b'=', b'=') | (b'<', b'>') | (b'>', b'=') | (b'<', b'=')
    )
}

fn blanks_size(bytes: &[u8]) -> usize
    ensures size { result ≡ prefix_len is_blank bytes.now }
    ensures within { result ≤ length bytes.now }
{
    bytes.iter().take_while(|b| is_blank(**b)).count()
}

fn after_blanks(bytes: &[u8]) -> &[u8]
    ensures { result.now ≡ after_blanks bytes.now }
{
    rest_after(bytes, blanks_size(bytes))
}

fn word_size(bytes: &[u8]) -> usize
    ensures size { result ≡ prefix_len is_word_byte bytes.now }
    ensures within { result ≤ length bytes.now }
{
    bytes.iter().take_while(|b| is_word_byte(**b)).count()
}

fn line_size(bytes: &[u8]) -> usize
    ensures size { result ≡ line_size bytes.now }
    ensures within { result ≤ length bytes.now }
{
    bytes.iter().take_while(|b| **b != b'\n').count()
}

fn inside_size(close: u8, rest: &[u8]) -> usize
    ensures size { result ≡ prefix_len (λ b. not (b == close || b == 10)) rest.now }
    ensures within { result ≤ length rest.now }
{
    rest.iter()
        .take_while(|b| !(**b == close || **b == b'\n'))
        .count()
}

fn closed_size(close: u8, rest: &[u8]) -> Option<usize>
    ensures size { result ≡ closed_size close rest.now }
    ensures within { IfSome result (λ size. size ≤ length rest.now + 1) }
{
    let inside = inside_size(close, rest);
    if begins_with(close, rest_after(rest, inside)) {
        Some(inside + 2)
    } else {
        None
    }
}

fn is_title(bytes: &[u8], size: usize) -> bool
    requires { size ≤ length bytes.now }
    ensures { result
        ≡ (str_eq_ignore_ascii_case (take size bytes.now) (codes "TITLE")
        && begins_with 61 (after_blanks (drop size bytes.now))) }
{
    is_same_word(&bytes[..size], "TITLE")
        && begins_with(b'=', after_blanks(rest_after(bytes, size)))
}

fn word_piece(bytes: &[u8]) -> Piece
    requires { 0 < prefix_len is_word_byte bytes.now }
    ensures piece { view result ≡ word_piece bytes.now }
    ensures within { IsWithin result (length bytes.now) }
{
    let size = word_size(bytes);
    if is_title(bytes, size) {
        Piece::Gap(size + line_size(rest_after(bytes, size)))
    } else {
        Piece::Token(TokenKind::Word, size)
    }
}

fn sign_piece(first: u8, rest: &[u8]) -> Option<Piece>
    ensures piece { option_map view result ≡ sign_piece first rest.now }
    ensures within { IfSome result (λ piece. IsWithin piece (length rest.now + 1)) }
{
    match rest {
        [second, ..] if is_double_sign(first, *second) => Some(Piece::Token(TokenKind::Sign, 2)),
        _ if is_sign(first) => Some(Piece::Token(TokenKind::Sign, 1)),
        _ => None,
    }
}

fn is_comment(first: u8, rest: &[u8]) -> bool
    ensures { result ≡ (first == 47 && begins_with 47 rest.now) }
{
    first == b'/' && begins_with(b'/', rest)
}

fn comment_or_sign(first: u8, rest: &[u8]) -> Option<Piece>
    ensures piece { option_map view result ≡ comment_or_sign first rest.now }
    ensures within { IfSome result (λ piece. IsWithin piece (length rest.now + 1)) }
{
    if is_comment(first, rest) {
        Some(Piece::Gap(line_size(rest) + 1))
    } else {
        sign_piece(first, rest)
    }
}

fn closed_token(kind: TokenKind, quote: u8, rest: &[u8]) -> Option<Piece>
    ensures piece { option_map view result ≡ option_map (token kind) (closed_size quote rest.now) }
    ensures within { IfSome result (λ piece. IsWithin piece (length rest.now + 1)) }
{
    match closed_size(quote, rest) {
        Some(size) => Some(Piece::Token(kind, size)),
        None => None,
    }
}

fn attribute(rest: &[u8]) -> Option<Piece>
    ensures piece { option_map view result ≡ option_map gap (closed_size 125 rest.now) }
    ensures within { IfSome result (λ piece. IsWithin piece (length rest.now + 1)) }
{
    match closed_size(b'}', rest) {
        Some(size) => Some(Piece::Gap(size)),
        None => None,
    }
}

fn mark_piece(first: u8, rest: &[u8]) -> Option<Piece>
    ensures piece { option_map view result ≡ mark_piece first rest.now }
    ensures within { IfSome result (λ piece. IsWithin piece (length rest.now + 1)) }
{
    match first {
        b'"' => closed_token(TokenKind::Quoted, b'"', rest),
        b'\'' => closed_token(TokenKind::Text, b'\'', rest),
        b'{' => attribute(rest),
        _ => comment_or_sign(first, rest),
    }
}

/// The piece at the front of a text.
pub fn piece_at(bytes: &[u8]) -> Option<Piece>
    ensures piece { option_map view result ≡ piece_at bytes.now }
    ensures within { IfSome result (λ piece. IsWithin piece (length bytes.now)) }
{
    let [first, rest @ ..] = bytes else {
        return None;
    };
    match *first {
        b'\n' => Some(Piece::LineEnd),
        b if is_blank(b) => Some(Piece::Gap(1)),
        b if is_word_byte(b) => Some(word_piece(bytes)),
        b => mark_piece(b, rest),
    }
}

/// How many bytes a piece has.
pub fn size_of(piece: Piece) -> usize
    ensures { result ≡ piece_size (view piece) }
{
    match piece {
        Piece::LineEnd => 1,
        Piece::Gap(size) | Piece::Token(_, size) => size,
    }
}

/// The line after a piece on a line.
pub fn line_behind(piece: Piece, line: u32) -> u32
    ensures { result ≡ line_behind (view piece) line }
{
    match piece {
        Piece::LineEnd => line.saturating_add(1),
        Piece::Gap(_) | Piece::Token(..) => line,
    }
}
