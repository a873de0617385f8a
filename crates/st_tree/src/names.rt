//! Names: what a name is, which words are reserved, what a name may be given to, and by what names are
//! compared.
ghost use Rattle.std.specs.Prelude.{◌≡◌, ◌&&◌, IfOk};
ghost use Rattle.std.specs.List.{list_all, list_any};
ghost use Rattle.s7_base.specs.Tokens.{is_among, is_same_word, is_word_byte};
ghost use Rattle.st_tree.specs.Naming.{conversion_word, is_conversion, is_conversion_word, is_free, is_letter, is_name, is_next, is_numbered, is_register, is_unit_number, is_unreserved, key_of, keywords, may_name_global, may_name_local, may_name_unit, names_block, types, with_plain_number, without_zeros, zeros_before};

use crate::expr::StType;
use crate::type_rules::is_type;
use crate::words::type_word;
use digit_texts::are_digits;
use s7_base::{NoMemory, front_of, is_same_word, is_word_byte, rest_after};
use std::alloc::Global;

/// The words of declarations and statements, of operators, types and functions; conversions, which are told
/// by their types, are not among them.
const KEYWORDS: [&str; 53] = [
    "VAR_GLOBAL",
    "VAR_IN_OUT",
    "VAR_TEMP",
    "END_VAR",
    "AT",
    "ARRAY",
    "OF",
    "PROGRAM",
    "END_PROGRAM",
    "FUNCTION",
    "END_FUNCTION",
    "IF",
    "THEN",
    "ELSIF",
    "ELSE",
    "END_IF",
    "CASE",
    "END_CASE",
    "WHILE",
    "DO",
    "END_WHILE",
    "EXIT",
    "CONTINUE",
    "RETURN",
    "TRUE",
    "FALSE",
    "NOT",
    "AND",
    "XOR",
    "OR",
    "MOD",
    "BOOL",
    "BYTE",
    "WORD",
    "DWORD",
    "INT",
    "DINT",
    "LINT",
    "BCD_TO_INT",
    "BCD_TO_DINT",
    "AREA_READ_X",
    "AREA_READ_B",
    "AREA_READ_W",
    "AREA_READ_D",
    "SHL",
    "SHR",
    "ROL",
    "ROR",
    "SEL",
    "AREA_WRITE_X",
    "AREA_WRITE_B",
    "AREA_WRITE_W",
    "AREA_WRITE_D",
];

/// The variables that need no declaration.
const REGISTERS: [&str; 15] = [
    "ACCU1", "ACCU2", "AR1", "AR2", "DBNO", "DINO", "NFC", "RLO", "STA", "ORB", "OS", "OV", "CC0",
    "CC1", "BR",
];

/// The types.
const TYPES: [StType; 7] = [
    StType::Bool,
    StType::Byte,
    StType::Word,
    StType::Dword,
    StType::Int,
    StType::Dint,
    StType::Lint,
];

// Letters and digits

/// Whether a name is two letters in any case and a number after them.
fn is_numbered(letters: &str, name: &[u8]) -> bool
    ensures { result ≡ is_numbered letters.now name.now }
{
    is_same_word(front_of(name, 2), letters) && are_digits(rest_after(name, 2))
}

fn is_listed(word: &[u8], table: &[&str]) -> bool
    ensures { result ≡ list_any (λ entry. is_same_word word.now entry.now) table.now }
{
    table.iter().any(|entry| is_same_word(word, entry))
}

// What a name is

fn is_letter(b: u8) -> bool
    ensures { result ≡ is_letter b }
{
    matches!(b, b'A'..=b'Z' | b'a'..=b'z' | b'_')
}

fn are_word_bytes(text: &[u8]) -> bool
    ensures { result ≡ list_all is_word_byte text.now }
{
    text.iter().all(|b| is_word_byte(*b))
}

fn is_keyword(name: &[u8]) -> bool
    ensures { result ≡ is_among keywords name.now }
{
    is_listed(name, &KEYWORDS)
}

fn is_conversion(from: StType, to: StType) -> bool
    ensures { result ≡ is_conversion from to }
{
    match to {
        StType::Bool => false,
        _ => !is_type(from, to),
    }
}

/// Whether the word is the name of the conversion from one type to another, in any case.
#[tactic(auto, using(crate::proofs::NameWords::conversion_is))]
fn is_word_of(name: &[u8], from: StType, to: StType) -> bool
    ensures { result ≡ is_same_word name.now (conversion_word from to) }
{
    let first = type_word(from);
    let rest = rest_after(name, first.len());
    is_same_word(front_of(name, first.len()), first)
        && is_same_word(front_of(rest, 4), "_TO_")
        && is_same_word(rest_after(rest, 4), type_word(to))
}

/// Whether the word is the name of a conversion from a type, in any case.
fn is_conversion_from(name: &[u8], from: StType) -> bool
    ensures { result ≡ list_any (λ to. is_conversion from to && is_same_word name.now (conversion_word from to)) types }
{
    TYPES.iter().any(|to| is_conversion(from, *to) && is_word_of(name, from, *to))
}

fn is_conversion_word(name: &[u8]) -> bool
    ensures { result ≡ is_conversion_word name.now }
{
    TYPES.iter().any(|from| is_conversion_from(name, *from))
}

/// Whether a name is no word of the language, in any case.
pub fn is_unreserved(name: &[u8]) -> bool
    ensures { result ≡ is_unreserved name.now }
{
    !is_keyword(name) && !is_conversion_word(name)
}

/// Whether a text is a letter or `_`, then letters, digits and `_`, and no word of the language.
pub fn is_name(name: &[u8]) -> bool
    ensures { result ≡ is_name name.now }
{
    match name {
        [] => false,
        [first, ..] => {
            is_letter(*first) && are_word_bytes(rest_after(name, 1)) && is_unreserved(name)
        }
    }
}

// What a name may be given to

fn is_register(name: &[u8]) -> bool
    ensures { result ≡ is_register name.now }
{
    is_listed(name, &REGISTERS)
}

/// Whether a name is that of a data block, as DB5.
pub fn names_block(name: &[u8]) -> bool
    ensures { result ≡ names_block name.now }
{
    is_numbered("DB", name)
}

fn is_unit_number(name: &[u8]) -> bool
    ensures { result ≡ is_unit_number name.now }
{
    is_numbered("OB", name) || is_numbered("FC", name) || is_numbered("FB", name)
}

fn is_next(name: &[u8]) -> bool
    ensures { result ≡ is_next name.now }
{
    is_same_word(name, "NEXT")
}

/// Whether a name that no word of the language is may be that of a global on I, Q or M or of a formal.
pub fn is_free(name: &[u8]) -> bool
    ensures { result ≡ is_free name.now }
{
    !is_register(name) && !is_next(name) && !names_block(name) && !is_unit_number(name)
}

/// Whether a local may have the name: `NEXT`, or a name that is free.
pub fn may_name_local(name: &[u8]) -> bool
    ensures { result ≡ may_name_local name.now }
{
    is_next(name) || is_free(name)
}

/// Whether a unit may have the name: OB, FC or FB with a number, or a name that is free.
pub fn may_name_unit(name: &[u8]) -> bool
    ensures { result ≡ may_name_unit name.now }
{
    is_unit_number(name) || is_free(name)
}

/// Whether a global may have the name: DB with a number for a data block, or a name that is free.
pub fn may_name_global(name: &[u8]) -> bool
    ensures { result ≡ may_name_global name.now }
{
    names_block(name) || is_free(name)
}

// By what names are compared

fn zeros_before(digits: &[u8]) -> usize
    ensures { result ≡ zeros_before digits.now }
{
    digits.iter().take_while(|b| **b == b'0').count()
}

/// The digits without leading zeros.
fn without_zeros(digits: &[u8]) -> &[u8]
    ensures { result.now ≡ without_zeros digits.now }
{
    rest_after(
        digits,
        zeros_before(digits).min(digits.len().saturating_sub(1)),
    )
}

fn with_plain_number(alloc: Global, capitals: Vec<u8>) -> Result<Vec<u8>, NoMemory>
    ensures { IfOk result (λ key. key.items ≡ with_plain_number capitals.items) }
{
    if !names_block(capitals.as_slice()) {
        return Ok(capitals);
    }
    let mut key = Vec::new(alloc);
    key.extend_from_slice(b"DB")?;
    key.extend_from_slice(without_zeros(rest_after(capitals.as_slice(), 2)))?;
    Ok(key)
}

/// What a name is compared by.
#[tactic(auto, unfolding(crate::specs::Naming::key_of))]
pub fn key_of(alloc: Global, name: &[u8]) -> Result<Vec<u8>, NoMemory>
    ensures { IfOk result (λ key. key.items ≡ key_of name.now) }
{
    let capitals = name.to_ascii_uppercase(alloc)?;
    with_plain_number(alloc, capitals)
}
