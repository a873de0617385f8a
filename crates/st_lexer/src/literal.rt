//! Literals at the front of a text.
ghost use Rattle.s7_base.specs.Tokens.{begins_with};
ghost use Rattle.std.specs.Prelude.{◌≡◌, ◌≤◌, ◌<◌, ◌+◌, ◌^◌, if◌then◌else◌, false, length, drop, take, None, IfSome, option_map};
ghost use Rattle.st_lexer.specs.Literals.{greatest, is_signed, integer_named, type_named, truth_named, literal_of_number, truth_behind, number_behind, value_behind, type_at, base_at, number_to, type_of_base, literal_behind, literal_at, is_in_range};
ghost use Rattle.st_lexer.specs.Pieces.{IsWithin};

use crate::number::{Base, Number, base_at, number_at, number_to};
use crate::text::word_size;
use s7_base::{begins_with, front_of, is_same_word, rest_after};
use st_tree::StType;

/// A literal at the front of a text.
#[derive(Clone, Copy, Debug, PartialEq, Eq)]
pub struct Literal {
    pub kind: StType,

    /// Whether a `-` comes before the number.
    pub minus: bool,

    /// The number; that of `TRUE` is 1.
    pub number: u64,

    /// How many bytes it takes, with its type.
    pub size: usize,
}

fn greatest(kind: StType, minus: bool) -> u64
    ensures { result ≡ greatest kind minus }
{
    match kind {
        StType::Bool => 1,
        StType::Byte => 255,
        StType::Word => 65_535,
        StType::Dword => 4_294_967_295,
        StType::Int => if minus { 32_768 } else { 32_767 },
        StType::Dint => if minus { 2_147_483_648 } else { 2_147_483_647 },
        StType::Lint => if minus {
            9_223_372_036_854_775_808
        } else {
            9_223_372_036_854_775_807
        },
    }
}

fn is_signed(kind: StType) -> bool
    ensures { result ≡ is_signed kind }
{
    matches!(kind, StType::Int | StType::Dint | StType::Lint)
}

fn integer_named(word: &[u8]) -> Option<StType>
    ensures { result ≡ integer_named word.now }
{
    if is_same_word(word, "INT") {
        Some(StType::Int)
    } else if is_same_word(word, "DINT") {
        Some(StType::Dint)
    } else if is_same_word(word, "LINT") {
        Some(StType::Lint)
    } else {
        None
    }
}

/// The type whose name this word is, in any case.
pub fn type_named(word: &[u8]) -> Option<StType>
    ensures { result ≡ type_named word.now }
{
    if is_same_word(word, "BOOL") {
        Some(StType::Bool)
    } else if is_same_word(word, "BYTE") {
        Some(StType::Byte)
    } else if is_same_word(word, "WORD") {
        Some(StType::Word)
    } else if is_same_word(word, "DWORD") {
        Some(StType::Dword)
    } else {
        integer_named(word)
    }
}

fn literal_of_number(kind: StType, minus: bool, before: usize, number: Number) -> Literal
    requires { before + number.size < 2 ^ 64 }
    ensures { result ≡ literal_of_number kind minus before number }
{
    Literal {
        kind,
        minus,
        number: number.value,
        size: before + number.size,
    }
}

fn truth_named(before: usize, word: &[u8]) -> Option<Literal>
    requires { before + length word.now < 2 ^ 64 }
    ensures literal { result ≡ truth_named before word.now }
    ensures within { IfSome result (λ literal. IsWithin literal.size (before + length word.now)) }
{
    if is_same_word(word, "TRUE") {
        let size = before + word.len();
        Some(Literal {
            kind: StType::Bool,
            minus: false,
            number: 1,
            size,
        })
    } else if is_same_word(word, "FALSE") {
        let size = before + word.len();
        Some(Literal {
            kind: StType::Bool,
            minus: false,
            number: 0,
            size,
        })
    } else {
        None
    }
}

fn truth_behind(before: usize, bytes: &[u8]) -> Option<Literal>
    requires { before + length bytes.now < 2 ^ 64 }
    ensures literal { result ≡ truth_behind before bytes.now }
    ensures within { IfSome result (λ literal. IsWithin literal.size (before + length bytes.now)) }
{
    if let Some(literal) = truth_named(before, front_of(bytes, word_size(bytes))) {
        return Some(literal);
    }
    let number = number_to(Base::Ten, bytes)?;
    Some(literal_of_number(StType::Bool, false, before, number))
}

fn number_behind(kind: StType, before: usize, bytes: &[u8]) -> Option<Literal>
    requires { before + length bytes.now < 2 ^ 64 }
    ensures literal { result ≡ number_behind kind before bytes.now }
    ensures within { IfSome result (λ literal. IsWithin literal.size (before + length bytes.now)) }
{
    if is_signed(kind) && begins_with(b'-', bytes) {
        let number = number_to(Base::Ten, rest_after(bytes, 1))?;
        Some(literal_of_number(kind, true, before + 1, number))
    } else {
        let number = number_at(bytes)?;
        Some(literal_of_number(kind, false, before, number))
    }
}

fn value_behind(kind: StType, before: usize, bytes: &[u8]) -> Option<Literal>
    requires { before + length bytes.now < 2 ^ 64 }
    ensures literal { result ≡ value_behind kind before bytes.now }
    ensures within { IfSome result (λ literal. IsWithin literal.size (before + length bytes.now)) }
{
    match kind {
        StType::Bool => truth_behind(before, bytes),
        _ => number_behind(kind, before, bytes),
    }
}

/// The type whose name is the first `size` bytes of a text, with `#` after it.
pub fn type_before(size: usize, bytes: &[u8]) -> Option<StType>
    ensures { result ≡ (if begins_with 35 (drop size bytes.now) then type_named (take size bytes.now) else None) }
{
    if begins_with(b'#', rest_after(bytes, size)) {
        type_named(front_of(bytes, size))
    } else {
        None
    }
}

/// The type whose name a text begins with, with `#` after it.
pub fn type_at(bytes: &[u8]) -> Option<StType>
    ensures { result ≡ type_at bytes.now }
{
    type_before(word_size(bytes), bytes)
}

fn type_of_base(base: Base) -> StType
    ensures { result ≡ type_of_base base }
{
    match base {
        Base::Ten => StType::Dint,
        Base::Two | Base::Eight | Base::Sixteen => StType::Dword,
    }
}

/// The literal of a number to this base without a type.
fn untyped_at(base: Base, bytes: &[u8]) -> Option<Literal>
    ensures literal { result ≡ option_map (literal_of_number (type_of_base base) false 0) (number_to base bytes.now) }
    ensures within { IfSome result (λ literal. IsWithin literal.size (length bytes.now)) }
{
    let number = number_to(base, bytes)?;
    Some(literal_of_number(type_of_base(base), false, 0, number))
}

/// The longest literal at the front of a text, whether or not its type has the number.
pub fn literal_at(bytes: &[u8]) -> Option<Literal>
    ensures literal { result ≡ literal_at bytes.now }
    ensures within { IfSome result (λ literal. IsWithin literal.size (length bytes.now)) }
{
    match type_at(bytes) {
        Some(kind) => {
            let before = word_size(bytes) + 1;
            value_behind(kind, before, rest_after(bytes, before))
        }
        None => untyped_at(base_at(bytes), bytes),
    }
}

/// The longest literal at the front of a text, whether or not its type has the number. `base` is the base of
/// a number at the front.
pub fn literal_to(base: Base, bytes: &[u8]) -> Option<Literal>
    requires { base ≡ base_at bytes.now }
    ensures { result ≡ literal_at bytes.now }
{
    match type_at(bytes) {
        Some(_) => literal_at(bytes),
        None => untyped_at(base, bytes),
    }
}

/// Whether the number of the literal is in the range of its type.
pub fn is_in_range(literal: Literal) -> bool
    ensures { result ≡ is_in_range literal }
{
    literal.number <= greatest(literal.kind, literal.minus)
}
