//! Why an item that fits no form is refused.
ghost use Rattle.std.specs.Prelude.{◌≡◌, ◌≤◌, ◌∷◌, length};
ghost use Rattle.stl_grammar.specs.Items.{data_reason, heading_reason, is_complete, is_semicolon, left_out_reason, statement_size};

use s7_base::{Kind, Reason, Token};
use stl_constants::{begins_with_word, is_sign};
use stl_declarations::is_user_type;
use stl_places::has_number;

pub fn is_semicolon(token: &Token) -> bool
    ensures { result ≡ is_semicolon token.now }
{
    is_sign(token, ";")
}

/// How many tokens come before the next `;`, or before the end of the text.
pub fn statement_size(tokens: &[Token]) -> usize
    ensures size { result ≡ statement_size tokens.now }
    ensures within { result ≤ length tokens.now }
{
    tokens
        .iter()
        .take_while(|token| !is_semicolon(token))
        .count()
}

fn is_complete(tokens: &[Token]) -> bool
    ensures { result ≡ is_complete tokens.now }
{
    statement_size(tokens) < tokens.len()
}

/// Why an item that fits no form is refused where a heading may come: `TYPE` is a user-defined type.
pub fn heading_reason(tokens: &[Token]) -> Reason
    ensures { result ≡ heading_reason tokens.now }
{
    if begins_with_word("TYPE", tokens) {
        Reason::Unsupported(Kind::UserType)
    } else {
        Reason::BadStatement
    }
}

/// Why what comes after the heading of a data block is refused, where its STRUCT or its function block may
/// stand, given the first token there and the rest.
fn data_reason_at(first: &Token, rest: &[Token]) -> Reason
    ensures { result ≡ data_reason (first.now ∷ rest.now) }
{
    if is_user_type(first, rest) {
        Reason::Unsupported(Kind::UserType)
    } else if has_number("SFB", first, rest) {
        Reason::Unsupported(Kind::SystemCall)
    } else {
        Reason::BadStatement
    }
}

/// Why what comes after the heading of a data block is refused, given all tokens from there.
pub fn data_reason(tokens: &[Token]) -> Reason
    ensures { result ≡ data_reason tokens.now }
{
    match tokens {
        [first, rest @ ..] => data_reason_at(first, rest),
        [] => Reason::BadStatement,
    }
}

/// Why a statement is refused that has a form of this unsupported kind: its kind where the statement is
/// complete, else `BadStatement`.
pub fn left_out_reason(tokens: &[Token], kind: Kind) -> Reason
    ensures { result ≡ left_out_reason tokens.now kind }
{
    if is_complete(tokens) {
        Reason::Unsupported(kind)
    } else {
        Reason::BadStatement
    }
}
