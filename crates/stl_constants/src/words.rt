//! Tests of one token.
ghost use Rattle.std.specs.Prelude.{◌≡◌, ◌||◌};
ghost use Rattle.stl_statement_grammar.specs.Words.{is_joined, is_joined_word, is_quoted_kind, is_sign, is_sign_kind, is_spelled, is_text_kind, is_word, is_word_kind};

use s7_base::{Token, TokenKind, is_same_word};

/// Whether the token is a word.
pub fn is_word_kind(token: &Token) -> bool
    ensures { result ≡ is_word_kind token.now.kind }
{
    matches!(token.kind, TokenKind::Word)
}

/// Whether the token is this word, in any case.
pub fn is_word(token: &Token, word: &str) -> bool
    ensures { result ≡ is_word word.now token.now }
{
    is_word_kind(token) && is_same_word(token.text.as_slice(), word)
}

/// Whether the token is this sign.
pub fn is_sign(token: &Token, sign: &str) -> bool
    ensures { result ≡ is_sign sign.now token.now }
{
    matches!(token.kind, TokenKind::Sign) && is_same_word(token.text.as_slice(), sign)
}

/// Whether the token is a word or a sign.
pub fn is_word_or_sign(token: &Token) -> bool
    ensures { result ≡ (is_word_kind token.now.kind || is_sign_kind token.now.kind) }
{
    matches!(token.kind, TokenKind::Word | TokenKind::Sign)
}

/// Whether the token is a word or a sign with this spelling, in any case.
pub fn is_spelled(token: &Token, text: &str) -> bool
    ensures { result ≡ is_spelled text.now token.now }
{
    is_word_or_sign(token) && is_same_word(token.text.as_slice(), text)
}

/// Whether the token is a name in quotes.
pub fn is_quoted(token: &Token) -> bool
    ensures { result ≡ is_quoted_kind token.now.kind }
{
    matches!(token.kind, TokenKind::Quoted)
}

/// Whether the token is a text in single quotes.
pub fn is_text(token: &Token) -> bool
    ensures { result ≡ is_text_kind token.now.kind }
{
    matches!(token.kind, TokenKind::Text)
}

/// Whether the token is this sign, with no blank before it.
pub fn is_joined(token: &Token, sign: &str) -> bool
    ensures { result ≡ is_joined sign.now token.now }
{
    is_sign(token, sign) && token.glued
}

/// Whether the token is a word, with no blank before it.
pub fn is_joined_word(token: &Token) -> bool
    ensures { result ≡ is_joined_word token.now }
{
    is_word_kind(token) && token.glued
}
