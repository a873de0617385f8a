//! Reads written places.
ghost use Rattle.std.specs.Prelude.{◌≡◌, ◌≤◌, ◌^◌, ℕ, Some, map, nat_le, not, option_map};
ghost use Rattle.std.specs.List.{find, prefix_len};
ghost use Rattle.memory_areas.specs.Access.{is_unaligned};
ghost use Rattle.stl_statement_grammar.specs.Places.{bit_at, bit_behind, bit_number, block_place_at, db_words, digits_of, has_letters, is_no_digit, letters_of, number_behind, numbered_at, place_at, place_behind, place_by, place_in, place_words, with_number, with_word};
ghost use Rattle.stl_statement_grammar.specs.Pointers.{has_word};
ghost use Rattle.stl_statement_grammar.specs.Readers.{IsWithin, further, read_as};
ghost use Rattle.stl_statement_grammar.specs.Statements.{is_in_area};
ghost use Rattle.stl_places.specs.Numbered.{numbered_of};
ghost use Rattle.stl_places.specs.inner.Rows.{place_word_of};

use digit_texts::kept_number;
use memory_areas::{AreaName, is_byte_in};
use s7_base::{Token, Width, front_of, is_same_word, rest_after};
use stl_constants::{begins_glued, fitting, is_joined, is_joined_word, is_word_kind};
use stl_statement_grammar::Read;
use stl_tree::RawPlace;

/// Letters with a number after them.
#[derive(Clone, Copy)]
pub struct Numbered<'a> {
    pub letters: &'a [u8],
    pub number: u32,
}

/// The word of an area and a width.
#[derive(Clone, Copy)]
pub struct PlaceWord {
    word: &'static str,
    pub area: AreaName,
    pub width: Width,
}

/// The words of areas and widths, those of DB first.
static PLACE_WORDS: [PlaceWord; 24] = [
    PlaceWord {
        word: "DBX",
        area: AreaName::Db,
        width: Width::Bit,
    },
    PlaceWord {
        word: "DBB",
        area: AreaName::Db,
        width: Width::Byte,
    },
    PlaceWord {
        word: "DBW",
        area: AreaName::Db,
        width: Width::Word,
    },
    PlaceWord {
        word: "DBD",
        area: AreaName::Db,
        width: Width::Dword,
    },
    PlaceWord {
        word: "I",
        area: AreaName::I,
        width: Width::Bit,
    },
    PlaceWord {
        word: "IB",
        area: AreaName::I,
        width: Width::Byte,
    },
    PlaceWord {
        word: "IW",
        area: AreaName::I,
        width: Width::Word,
    },
    PlaceWord {
        word: "ID",
        area: AreaName::I,
        width: Width::Dword,
    },
    PlaceWord {
        word: "Q",
        area: AreaName::Q,
        width: Width::Bit,
    },
    PlaceWord {
        word: "QB",
        area: AreaName::Q,
        width: Width::Byte,
    },
    PlaceWord {
        word: "QW",
        area: AreaName::Q,
        width: Width::Word,
    },
    PlaceWord {
        word: "QD",
        area: AreaName::Q,
        width: Width::Dword,
    },
    PlaceWord {
        word: "M",
        area: AreaName::M,
        width: Width::Bit,
    },
    PlaceWord {
        word: "MB",
        area: AreaName::M,
        width: Width::Byte,
    },
    PlaceWord {
        word: "MW",
        area: AreaName::M,
        width: Width::Word,
    },
    PlaceWord {
        word: "MD",
        area: AreaName::M,
        width: Width::Dword,
    },
    PlaceWord {
        word: "L",
        area: AreaName::L,
        width: Width::Bit,
    },
    PlaceWord {
        word: "LB",
        area: AreaName::L,
        width: Width::Byte,
    },
    PlaceWord {
        word: "LW",
        area: AreaName::L,
        width: Width::Word,
    },
    PlaceWord {
        word: "LD",
        area: AreaName::L,
        width: Width::Dword,
    },
    PlaceWord {
        word: "DIX",
        area: AreaName::Di,
        width: Width::Bit,
    },
    PlaceWord {
        word: "DIB",
        area: AreaName::Di,
        width: Width::Byte,
    },
    PlaceWord {
        word: "DIW",
        area: AreaName::Di,
        width: Width::Word,
    },
    PlaceWord {
        word: "DID",
        area: AreaName::Di,
        width: Width::Dword,
    },
];

fn is_no_digit(b: u8) -> bool
    ensures { result ≡ is_no_digit b }
{
    !b.is_ascii_digit()
}

/// How many bytes of a word come before its first digit.
fn letters_size(text: &[u8]) -> usize
    ensures { result ≡ prefix_len is_no_digit text.now }
{
    text.iter().take_while(|b| is_no_digit(**b)).count()
}

/// The bytes of a word before its first digit.
fn letters_of(text: &[u8]) -> &[u8]
    ensures { result.now ≡ letters_of text.now }
{
    front_of(text, letters_size(text))
}

/// The bytes of a word from its first digit on.
fn digits_of(text: &[u8]) -> &[u8]
    ensures { result.now ≡ digits_of text.now }
{
    rest_after(text, letters_size(text))
}

fn with_number<'a>(letters: &'a [u8], digits: &[u8]) -> Option<Numbered<'a>>
    ensures { option_map numbered_of result ≡ with_number letters.now digits.now }
{
    match kept_number(digits) {
        Some(number) => Some(Numbered { letters, number }),
        None => None,
    }
}

fn with_word<'a>(letters: &'a [u8], token: &Token) -> Option<Numbered<'a>>
    ensures { option_map numbered_of result ≡ with_word letters.now token.now }
{
    if is_word_kind(token) {
        with_number(letters, token.text.as_slice())
    } else {
        None
    }
}

/// Letters with the digits after them in their word, or with the number in the next one.
fn number_behind<'a>(letters: &'a [u8], digits: &[u8], rest: &[Token]) -> Read<Numbered<'a>>
    ensures value { read_as numbered_of result ≡ number_behind letters.now digits.now rest.now }
    ensures within { IsWithin 2 result }
{
    match digits {
        [] => match rest {
            [next, ..] => fitting(2, with_word(letters, next)),
            [] => Read::No,
        },
        _ => fitting(1, with_number(letters, digits)),
    }
}

/// Letters and a number: `MB5` or `MB 5`.
pub fn numbered_at(tokens: &[Token]) -> Read<Numbered<'_>>
    ensures value { read_as numbered_of result ≡ numbered_at tokens.now }
    ensures within { IsWithin 2 result }
{
    match tokens {
        [first, rest @ ..] if is_word_kind(first) => {
            let text = first.text.as_slice();
            number_behind(letters_of(text), digits_of(text), rest)
        }
        _ => Read::No,
    }
}

fn has_letters(letters: &[u8], row: &PlaceWord) -> bool
    ensures { result ≡ has_letters letters.now (place_word_of row.now) }
{
    is_same_word(letters, row.word)
}

fn word_found(letters: &[u8], table: &[PlaceWord]) -> Option<PlaceWord>
    ensures { result ≡ find (λ row. has_letters letters.now (place_word_of row)) table.now }
{
    table.iter().copied().find(|row| has_letters(letters, row))
}

/// The word of a table with these letters.
fn first_word(letters: &[u8], table: &[PlaceWord]) -> Option<PlaceWord>
    ensures { option_map place_word_of result ≡ find (has_letters letters.now) (map place_word_of table.now) }
{
    word_found(letters, table)
}

fn place_words() -> &'static [PlaceWord]
    ensures { map place_word_of result.now ≡ place_words }
{
    &PLACE_WORDS
}

/// The word of an area and a width that a token is.
pub fn word_in(token: &Token) -> Option<PlaceWord>
    ensures { option_map place_word_of result ≡ find (has_word token.now) place_words }
{
    if is_word_kind(token) {
        first_word(token.text.as_slice(), place_words())
    } else {
        None
    }
}

/// The words of DB.
fn db_words() -> &'static [PlaceWord]
    ensures { map place_word_of result.now ≡ db_words }
{
    front_of(&PLACE_WORDS, 4)
}

/// The number of a bit: a point and a number, with no blank before either.
fn bit_number(point: &Token, bit: &Token) -> Option<u32>
    ensures { result ≡ bit_number point.now bit.now }
{
    if is_joined(point, ".") && is_joined_word(bit) {
        kept_number(bit.text.as_slice())
    } else {
        None
    }
}

/// The number of a bit at the front of tokens: a point and a number, with no blank before either.
pub fn bit_at(tokens: &[Token]) -> Read<u32>
    ensures value { result ≡ bit_at tokens.now }
    ensures within { IsWithin 2 result }
{
    match tokens {
        [point, bit, ..] => fitting(2, bit_number(point, bit)),
        _ => Read::No,
    }
}

/// The number of a bit after that of a byte; 0 for a byte or more.
fn bit_behind(width: Width, tokens: &[Token]) -> Read<u32>
    ensures value { result ≡ bit_behind width tokens.now }
    ensures within { IsWithin 2 result }
{
    match width {
        Width::Bit => bit_at(tokens),
        Width::Byte | Width::Word | Width::Dword => Read::Fits(0, 0),
    }
}

/// A place by its word, the number of its byte and what follows it.
fn place_by(block: Option<u32>, word: PlaceWord, byte: u32, tokens: &[Token]) -> Read<RawPlace>
    ensures value { result ≡ place_by block (Some (place_word_of word)) byte tokens.now }
    ensures within { IsWithin 2 result }
{
    match bit_behind(word.width, tokens) {
        Read::Fits(bit, size) => Read::Fits(
            RawPlace {
                block,
                area: word.area,
                width: word.width,
                byte,
                bit,
            },
            size,
        ),
        Read::LeftOut(kind) => Read::LeftOut(kind),
        Read::No => Read::No,
    }
}

/// What was read after this many tokens, with these included.
pub fn further<T>(before: usize, read: Read<T>) -> Read<T>
    requires before { before ≤ 2 ^ 62 }
    requires within { IsWithin (2 ^ 62) read }
    ensures { result ≡ further before read }
{
    match read {
        Read::Fits(found, size) => Read::Fits(found, before + size),
        Read::LeftOut(kind) => Read::LeftOut(kind),
        Read::No => Read::No,
    }
}

/// A place with a word of a table; in a data block where its number comes before it.
fn place_in(table: &[PlaceWord], block: Option<u32>, tokens: &[Token]) -> Read<RawPlace>
    ensures value { result ≡ place_in (map place_word_of table.now) block tokens.now }
    ensures within { IsWithin 4 result }
{
    match numbered_at(tokens) {
        Read::Fits(found, size) => match first_word(found.letters, table) {
            Some(word) => further(
                size,
                place_by(block, word, found.number, rest_after(tokens, size)),
            ),
            None => Read::No,
        },
        Read::LeftOut(kind) => Read::LeftOut(kind),
        Read::No => Read::No,
    }
}

/// A place of DB after the number of its data block: a point and the place, with no blank before either.
fn place_behind(block: u32, tokens: &[Token]) -> Read<RawPlace>
    ensures value { result ≡ place_behind block tokens.now }
    ensures within { IsWithin 5 result }
{
    match tokens {
        [point, rest @ ..] if is_joined(point, ".") && begins_glued(rest) => {
            further(1, place_in(db_words(), Some(block), rest))
        }
        _ => Read::No,
    }
}

/// A place in a data block, by the number before it: `DB5.DBW 4`.
fn block_place_at(tokens: &[Token]) -> Read<RawPlace>
    ensures value { result ≡ block_place_at tokens.now }
    ensures within { IsWithin 7 result }
{
    match numbered_at(tokens) {
        Read::Fits(found, size) => {
            if is_same_word(found.letters, "DB") {
                further(size, place_behind(found.number, rest_after(tokens, size)))
            } else {
                Read::No
            }
        }
        Read::LeftOut(kind) => Read::LeftOut(kind),
        Read::No => Read::No,
    }
}

/// A written place.
pub fn place_at(tokens: &[Token]) -> Read<RawPlace>
    ensures value { result ≡ place_at tokens.now }
    ensures within { IsWithin 7 result }
{
    match place_in(place_words(), None, tokens) {
        Read::No => block_place_at(tokens),
        read => read,
    }
}

/// Whether the place lies in its area, with a bit number that its width has.
pub fn is_in_area(place: RawPlace) -> bool
    ensures { result ≡ is_in_area place }
{
    is_byte_in(place.area, place.width, place.byte) && place.bit <= most_bit(place.width)
}

/// The greatest bit number of a width.
fn most_bit(width: Width) -> u32
    ensures { (bit : ℕ) → nat_le bit result ≡ not (is_unaligned width bit) }
{
    match width {
        Width::Bit => 7,
        Width::Byte | Width::Word | Width::Dword => 0,
    }
}
