//! Reads constants.
ghost use Rattle.std.specs.Prelude.{◌≡◌, ◌≤◌, ◌<◌, ◌^◌, ◌-◌, IfSome, map, option_map};
ghost use Rattle.std.specs.List.{find};
ghost use Rattle.memory_areas.specs.Access.{bits_wide};
ghost use Rattle.stl_statement_grammar.specs.Constants.{addend_at, addend_prefixes, begins_glued, begins_real, behind_prefix, binary, binary_behind, binary_of, constant, constant_at, ends_real, four_behind, four_bytes, half, has_prefix, hex_behind, hex_of, is_exponent, is_fraction, is_real, is_signed_exponent, left_out_prefixes, long_behind, marked_at, name_behind, negative, negative_behind, number_at, pair_of, plain, plain_at, prefixed_at, prefixes, real_at, room_for, signed_at, text_at, text_in, text_of, two_behind, two_bytes, up_to, zero_behind};
ghost use Rattle.stl_statement_grammar.specs.Readers.{fitting, number_in, or_else, read_as};
ghost use Rattle.stl_statement_grammar.specs.declared.mnemonic.Prefix.TheVariants as prefix;
ghost use Rattle.s7_base.specs.declared.word.Width.TheVariants as width;
ghost use Rattle.stl_constants.specs.inner.Rows.{prefixed_of};

use crate::number::{bits_of, hex_number};
use crate::words::{is_joined, is_joined_word, is_sign, is_text, is_word, is_word_kind};
use digit_texts::{are_digits, digits_size, number_up_to};
use s7_base::{Kind, Token, Width, rest_after};
use stl_statement_grammar::{Bits, Prefix, Read};
use stl_tree::Constant;

/// A word before a `#`, and what follows the `#`.
#[derive(Clone, Copy)]
pub struct Prefixed(&'static str, Prefix);

/// The prefixes: first those of numbers of all kinds, then that of a double word, then those of constants
/// that are not supported.
static PREFIXES: [Prefixed; 15] = [
    Prefixed("B", Prefix::Bytes),
    Prefixed("W", Prefix::Hex(Width::Word)),
    Prefixed("DW", Prefix::Hex(Width::Dword)),
    Prefixed("2", Prefix::Binary),
    Prefixed("L", Prefix::Long),
    Prefixed("C", Prefix::LeftOut(Kind::Counter)),
    Prefixed("P", Prefix::Pointer),
    Prefixed("T", Prefix::LeftOut(Kind::DateTime)),
    Prefixed("TIME", Prefix::LeftOut(Kind::DateTime)),
    Prefixed("S5T", Prefix::LeftOut(Kind::DateTime)),
    Prefixed("S5TIME", Prefix::LeftOut(Kind::DateTime)),
    Prefixed("D", Prefix::LeftOut(Kind::DateTime)),
    Prefixed("DATE", Prefix::LeftOut(Kind::DateTime)),
    Prefixed("TOD", Prefix::LeftOut(Kind::DateTime)),
    Prefixed("DT", Prefix::LeftOut(Kind::DateTime)),
];

/// What was read, with the number of its tokens.
pub fn fitting<T>(size: usize, found: Option<T>) -> Read<T>
    ensures { result ≡ fitting size found }
{
    match found {
        Some(found) => Read::Fits(found, size),
        None => Read::No,
    }
}

fn constant(width: Width, value: u32) -> Constant
    ensures { result ≡ constant width value }
{
    Constant {
        width,
        signed: false,
        binary: false,
        value,
    }
}

/// A plain number as a constant, by its pattern.
fn plain(value: u32) -> Constant
    ensures { result ≡ plain value }
{
    Constant {
        width: Width::Word,
        signed: true,
        binary: false,
        value,
    }
}

/// A word that is a number of at most `most`.
fn number_in(most: u32, token: &Token) -> Option<u32>
    ensures value { result ≡ number_in most token.now }
    ensures within { IfSome result (λ number. number ≤ most) }
{
    if is_word_kind(token) {
        Some(number_up_to(u64::from(most), token.text.as_slice())? as u32)
    } else {
        None
    }
}

/// Half of the number of patterns of a width.
fn half(width: Width) -> u32
    ensures { result ≡ half width }
{
    match width {
        Width::Bit => 1,
        Width::Byte => 128,
        Width::Word => 32_768,
        Width::Dword => 2_147_483_648,
    }
}

/// The greatest pattern of a width.
fn ones(width: Width) -> u32
    ensures { result ≡ 2 ^ bits_wide width - 1 }
{
    match width {
        Width::Bit => 1,
        Width::Byte => 255,
        Width::Word => 65_535,
        Width::Dword => 4_294_967_295,
    }
}

/// The pattern of a negative number.
fn negative(width: Width, n: u32) -> u32
    requires { n ≤ half width }
    ensures { result ≡ negative width n }
{
    match n {
        0 => 0,
        _ => ones(width) - (n - 1),
    }
}

fn negative_behind(width: Width, tokens: &[Token]) -> Option<u32>
    ensures { result ≡ negative_behind width tokens.now }
{
    match tokens {
        [token, ..] if token.glued => Some(negative(width, number_in(half(width), token)?)),
        _ => None,
    }
}

/// The pattern of a number with its sign, after this many tokens.
fn signed_at(before: usize, width: Width, tokens: &[Token]) -> Read<u32>
    requires { before ≤ 2 }
    ensures { result ≡ signed_at before width tokens.now }
{
    match tokens {
        [sign, rest @ ..] if is_sign(sign, "-") => {
            fitting(before + 2, negative_behind(width, rest))
        }
        [first, ..] => fitting(before + 1, number_in(half(width) - 1, first)),
        [] => Read::No,
    }
}

/// `16#` and digits, with no blank inside.
fn hex_of(width: Width, base: &Token, hash: &Token, digits: &Token) -> Option<Constant>
    ensures { result ≡ hex_of width base.now hash.now digits.now }
{
    if is_word(base, "16") && base.glued && is_joined(hash, "#") && is_joined_word(digits) {
        let value = hex_number(ones(width), digits.text.as_slice())?;
        Some(constant(width, value))
    } else {
        None
    }
}

fn hex_behind(width: Width, tokens: &[Token]) -> Read<Constant>
    ensures { result ≡ hex_behind width tokens.now }
{
    match tokens {
        [base, hash, digits, ..] => fitting(5, hex_of(width, base, hash, digits)),
        _ => Read::No,
    }
}

/// Two numbers from 0 to 255 with a comma between them, to the base 256.
fn pair_of(high: &Token, comma: &Token, low: &Token) -> Option<u32>
    ensures value { result ≡ pair_of high.now comma.now low.now }
    ensures within { IfSome result (λ value. value < 2 ^ 16) }
{
    if is_sign(comma, ",") {
        let high = number_in(255, high)?;
        let low = number_in(255, low)?;
        Some(high * 256 + low)
    } else {
        None
    }
}

fn two_bytes(
    before: &Token,
    a: &Token,
    comma: &Token,
    b: &Token,
    behind: &Token,
) -> Option<Constant>
    ensures { result ≡ two_bytes before.now a.now comma.now b.now behind.now }
{
    if is_joined(before, "(") && is_sign(behind, ")") {
        let value = pair_of(a, comma, b)?;
        Some(constant(Width::Word, value))
    } else {
        None
    }
}

fn two_behind(tokens: &[Token]) -> Read<Constant>
    ensures { result ≡ two_behind tokens.now }
{
    match tokens {
        [before, a, comma, b, behind, ..] => fitting(7, two_bytes(before, a, comma, b, behind)),
        _ => Read::No,
    }
}

fn four_bytes(
    before: &Token,
    high: Option<u32>,
    comma: &Token,
    low: Option<u32>,
    behind: &Token,
) -> Option<Constant>
    requires high { IfSome high (λ value. value < 2 ^ 16) }
    requires low { IfSome low (λ value. value < 2 ^ 16) }
    ensures { result ≡ four_bytes before.now high comma.now low behind.now }
{
    if is_joined(before, "(") && is_sign(comma, ",") && is_sign(behind, ")") {
        let high = high?;
        let low = low?;
        Some(constant(Width::Dword, high * 65_536 + low))
    } else {
        None
    }
}

fn four_behind(tokens: &[Token]) -> Read<Constant>
    ensures { result ≡ four_behind tokens.now }
{
    match tokens {
        [before, a, comma, b, second, c, third, d, behind, ..] => {
            let high = pair_of(a, comma, b);
            let low = pair_of(c, third, d);
            fitting(11, four_bytes(before, high, second, low, behind))
        }
        _ => Read::No,
    }
}

/// The least width that has room for this many digits.
fn room_for(count: u32) -> Width
    ensures { result ≡ room_for count }
{
    if count <= 8 {
        Width::Byte
    } else if count <= 16 {
        Width::Word
    } else {
        Width::Dword
    }
}

fn binary(bits: Bits) -> Constant
    ensures { result ≡ binary bits }
{
    Constant {
        width: room_for(bits.count),
        signed: false,
        binary: true,
        value: bits.value,
    }
}

fn binary_of(digits: &Token) -> Option<Constant>
    ensures { result ≡ binary_of digits.now }
{
    if is_joined_word(digits) {
        Some(binary(bits_of(digits.text.as_slice())?))
    } else {
        None
    }
}

fn binary_behind(tokens: &[Token]) -> Read<Constant>
    ensures { result ≡ binary_behind tokens.now }
{
    match tokens {
        [digits, ..] => fitting(3, binary_of(digits)),
        [] => Read::No,
    }
}

fn as_long(read: Read<u32>) -> Read<Constant>
    ensures { result ≡ read_as (constant width.Dword) read }
{
    match read {
        Read::Fits(value, size) => Read::Fits(constant(Width::Dword, value), size),
        Read::LeftOut(kind) => Read::LeftOut(kind),
        Read::No => Read::No,
    }
}

fn as_plain(read: Read<u32>) -> Read<Constant>
    ensures { result ≡ read_as plain read }
{
    match read {
        Read::Fits(value, size) => Read::Fits(plain(value), size),
        Read::LeftOut(kind) => Read::LeftOut(kind),
        Read::No => Read::No,
    }
}

fn long_behind(tokens: &[Token]) -> Read<Constant>
    ensures { result ≡ long_behind tokens.now }
{
    match tokens {
        [first, ..] if first.glued => as_long(signed_at(2, Width::Dword, tokens)),
        _ => Read::No,
    }
}

/// The tokens after `P#`: with another `#` they are a pointer to a name, which is not supported.
fn name_behind(tokens: &[Token]) -> Read<Constant>
    ensures { result ≡ name_behind tokens.now }
{
    match tokens {
        [hash, ..] if is_joined(hash, "#") => Read::LeftOut(Kind::NamePointer),
        _ => Read::No,
    }
}

fn bytes_behind(tokens: &[Token]) -> Read<Constant>
    ensures { result ≡ or_else (two_behind tokens.now) (four_behind tokens.now) }
{
    match two_behind(tokens) {
        Read::No => four_behind(tokens),
        read => read,
    }
}

fn hex_or_bytes_behind(tokens: &[Token]) -> Read<Constant>
    ensures { result ≡ behind_prefix prefix.Bytes tokens.now }
{
    match hex_behind(Width::Byte, tokens) {
        Read::No => bytes_behind(tokens),
        read => read,
    }
}

fn behind_prefix(what: Prefix, tokens: &[Token]) -> Read<Constant>
    ensures { result ≡ behind_prefix what tokens.now }
{
    match what {
        Prefix::Long => long_behind(tokens),
        Prefix::Hex(width) => hex_behind(width, tokens),
        Prefix::Bytes => hex_or_bytes_behind(tokens),
        Prefix::Binary => binary_behind(tokens),
        Prefix::Pointer => name_behind(tokens),
        Prefix::LeftOut(kind) => Read::LeftOut(kind),
    }
}

/// Whether the tokens begin with the prefix, with no blank before its `#`.
fn has_prefix(row: &Prefixed, tokens: &[Token]) -> bool
    ensures { result ≡ has_prefix tokens.now (prefixed_of row.now) }
{
    match tokens {
        [first, hash, ..] => is_word(first, row.0) && is_joined(hash, "#"),
        _ => false,
    }
}

fn prefix_found(tokens: &[Token], table: &[Prefixed]) -> Option<Prefixed>
    ensures { result ≡ find (λ row. has_prefix tokens.now (prefixed_of row)) table.now }
{
    table.iter().copied().find(|row| has_prefix(row, tokens))
}

/// The first prefix of a table with which the tokens begin.
fn first_prefix(tokens: &[Token], table: &[Prefixed]) -> Option<Prefixed>
    ensures { option_map prefixed_of result ≡ find (has_prefix tokens.now) (map prefixed_of table.now) }
{
    prefix_found(tokens, table)
}

/// A constant with a prefix of a table.
fn prefixed_at(table: &[Prefixed], tokens: &[Token]) -> Read<Constant>
    ensures { result ≡ prefixed_at (map prefixed_of table.now) tokens.now }
{
    match first_prefix(tokens, table) {
        Some(row) => behind_prefix(row.1, rest_after(tokens, 2)),
        None => Read::No,
    }
}

fn prefixes() -> &'static [Prefixed]
    ensures { map prefixed_of result.now ≡ prefixes }
{
    &PREFIXES
}

fn addend_prefixes() -> &'static [Prefixed]
    ensures { map prefixed_of result.now ≡ addend_prefixes }
{
    rest_after(&PREFIXES, 4)
}

/// The prefixes of constants that are not supported.
fn left_out_prefixes() -> &'static [Prefixed]
    ensures { map prefixed_of result.now ≡ left_out_prefixes }
{
    rest_after(&PREFIXES, 5)
}

fn is_exponent(digits: &[u8], rest: &[Token]) -> bool
    ensures { result ≡ is_exponent digits.now rest.now }
{
    match digits {
        [] => is_signed_exponent(rest),
        _ => are_digits(digits),
    }
}

fn is_signed_exponent(rest: &[Token]) -> bool
    ensures { result ≡ is_signed_exponent rest.now }
{
    match rest {
        [sign, digits, ..] => {
            (is_joined(sign, "+") || is_joined(sign, "-"))
                && is_joined_word(digits)
                && are_digits(digits.text.as_slice())
        }
        _ => false,
    }
}

/// Whether a real constant may end after these digits after its point: nothing follows, or an exponent.
fn ends_real(text: &[u8], rest: &[Token]) -> bool
    ensures { result ≡ ends_real text.now rest.now }
{
    match text {
        [letter, more @ ..] => letter.to_ascii_uppercase() == b'E' && is_exponent(more, rest),
        [] => true,
    }
}

fn is_fraction(text: &[u8], rest: &[Token]) -> bool
    ensures { result ≡ is_fraction text.now rest.now }
{
    let size = digits_size(text);
    size > 0 && ends_real(rest_after(text, size), rest)
}

/// Whether the tokens are digits, a point and digits, with no blank inside.
fn is_real(tokens: &[Token]) -> bool
    ensures { result ≡ is_real tokens.now }
{
    match tokens {
        [whole, point, part, rest @ ..] => {
            is_word_kind(whole)
                && are_digits(whole.text.as_slice())
                && is_joined(point, ".")
                && is_joined_word(part)
                && is_fraction(part.text.as_slice(), rest)
        }
        _ => false,
    }
}

/// Whether no blank comes before the first token.
pub fn begins_glued(tokens: &[Token]) -> bool
    ensures { result ≡ begins_glued tokens.now }
{
    match tokens {
        [first, ..] => first.glued,
        [] => false,
    }
}

/// Whether the tokens begin with a real constant; a minus may come before it.
fn begins_real(tokens: &[Token]) -> bool
    ensures { result ≡ begins_real tokens.now }
{
    match tokens {
        [sign, rest @ ..] if is_sign(sign, "-") => begins_glued(rest) && is_real(rest),
        [_, ..] => is_real(tokens),
        [] => false,
    }
}

fn real_at(tokens: &[Token]) -> Read<Constant>
    ensures { result ≡ real_at tokens.now }
{
    if begins_real(tokens) {
        Read::LeftOut(Kind::Real)
    } else {
        Read::No
    }
}

/// Characters as a number to the base 256.
fn text_of(text: &[u8]) -> Option<Constant>
    ensures { result ≡ text_of text.now }
{
    match text {
        [a] => Some(constant(Width::Byte, u32::from(*a))),
        [a, b] => Some(constant(Width::Word, u32::from(*a) * 256 + u32::from(*b))),
        [a, b, c] => Some(constant(
            Width::Dword,
            (u32::from(*a) * 256 + u32::from(*b)) * 256 + u32::from(*c),
        )),
        [a, b, c, d] => Some(constant(
            Width::Dword,
            ((u32::from(*a) * 256 + u32::from(*b)) * 256 + u32::from(*c)) * 256 + u32::from(*d),
        )),
        _ => None,
    }
}

fn text_in(token: &Token) -> Option<Constant>
    ensures { result ≡ text_in token.now }
{
    if is_text(token) {
        text_of(token.text.as_slice())
    } else {
        None
    }
}

fn text_at(tokens: &[Token]) -> Read<Constant>
    ensures { result ≡ text_at tokens.now }
{
    match tokens {
        [first, ..] => fitting(1, text_in(first)),
        [] => Read::No,
    }
}

fn plain_at(tokens: &[Token]) -> Read<Constant>
    ensures { result ≡ plain_at tokens.now }
{
    as_plain(signed_at(0, Width::Word, tokens))
}

/// A constant with a prefix of a table, or a real one.
fn marked_at(table: &[Prefixed], tokens: &[Token]) -> Read<Constant>
    ensures { result ≡ marked_at (map prefixed_of table.now) tokens.now }
{
    match prefixed_at(table, tokens) {
        Read::No => real_at(tokens),
        read => read,
    }
}

/// A constant that is not supported: a form by its prefix, or a real constant.
pub fn left_out_constant_at(tokens: &[Token]) -> Read<Constant>
    ensures { result ≡ marked_at left_out_prefixes tokens.now }
{
    marked_at(left_out_prefixes(), tokens)
}

/// The constant at a place where `+` takes a number.
pub fn addend_at(tokens: &[Token]) -> Read<Constant>
    ensures { result ≡ addend_at tokens.now }
{
    match marked_at(addend_prefixes(), tokens) {
        Read::No => plain_at(tokens),
        read => read,
    }
}

fn number_or_marked(tokens: &[Token]) -> Read<Constant>
    ensures { result ≡ or_else (marked_at prefixes tokens.now) (plain_at tokens.now) }
{
    match marked_at(prefixes(), tokens) {
        Read::No => plain_at(tokens),
        read => read,
    }
}

/// The constant at a place where any constant may be written.
pub fn constant_at(tokens: &[Token]) -> Read<Constant>
    ensures { result ≡ constant_at tokens.now }
{
    match text_at(tokens) {
        Read::No => number_or_marked(tokens),
        read => read,
    }
}

/// The number 0 after a minus, with no blank between them.
fn zero_behind(tokens: &[Token]) -> Option<u32>
    ensures { result ≡ zero_behind tokens.now }
{
    match tokens {
        [token, ..] if token.glued => number_in(0, token),
        _ => None,
    }
}

/// A number from 0 to `most`; `-0` is 0.
fn up_to(most: u8, tokens: &[Token]) -> Read<u32>
    ensures { result ≡ up_to most tokens.now }
{
    match tokens {
        [sign, rest @ ..] if is_sign(sign, "-") => fitting(2, zero_behind(rest)),
        [first, ..] => fitting(1, number_in(u32::from(most), first)),
        [] => Read::No,
    }
}

/// The constant at a place where a number from 0 to `most` may be written.
pub fn number_at(most: u8, tokens: &[Token]) -> Read<Constant>
    ensures { result ≡ number_at most tokens.now }
{
    match left_out_constant_at(tokens) {
        Read::No => as_plain(up_to(most, tokens)),
        read => read,
    }
}
