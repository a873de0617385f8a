//! The argument for the block that a run calls, as `OB1`, `FC10(MW4,M0.0)` or `FB1/DB5`.
ghost use Rattle.std.specs.Prelude.{◌≡◌, ◌*◌, ◌-◌, ◌<◌, ◌≤◌, ◌&&◌, ◌==◌, not, take, length, option_map, IfOk, IfSome};
ghost use Rattle.std.specs.List.{prefix_len};
ghost use Rattle.s7_base.specs.Tokens.{is_word_byte};
ghost use Rattle.command_words.specs.CallWord.{number_in, short_number, begins_with_letter, behind, number_behind, front_size, front, back, letter_area, letter_width, bit_number, bit_actual, bytes_actual, area_actual, part_of, block_actual, actual_of, pieces, actuals_in, actuals_behind, block_meant, call_with, call_meant};

use digit_texts::number_up_to;
use memory_areas::{Area, BlockName, Call, Place};
use s7_base::{List, NoMemory, Width, is_word_byte, rest_after};
use std::alloc::Global;

/// A decimal number of one to `places` digits, at most `most`.
pub fn number_in(places: usize, most: u64, digits: &[u8]) -> Option<u64>
    ensures value { result ≡ number_in places most digits.now }
    ensures within { IfSome result (λ number. number ≤ most) }
{
    if digits.len() <= places {
        number_up_to(most, digits)
    } else {
        None
    }
}

fn short_number(digits: &[u8]) -> Option<u16>
    ensures { result ≡ short_number digits.now }
{
    match number_in(5, 65535, digits) {
        Some(number) => Some(number as u16),
        None => None,
    }
}

fn begins_with_letter(letter: u8, text: &[u8]) -> bool
    ensures { result ≡ begins_with_letter letter text.now }
{
    match text {
        [first, ..] => first.to_ascii_uppercase() == letter,
        [] => false,
    }
}

/// The rest of a text that begins with these letters, given as capitals, in any case.
fn behind<'t>(letters: &str, text: &'t [u8]) -> Option<&'t [u8]>
    ensures { option_map (λ rest. rest.now) result ≡ behind letters.now text.now }
{
    let mut rest = text;
    for letter in letters.as_bytes() {
        if !begins_with_letter(*letter, rest) {
            return None;
        }
        rest = rest_after(rest, 1);
    }
    Some(rest)
}

fn number_behind(letters: &str, text: &[u8]) -> Option<u16>
    ensures { result ≡ number_behind letters.now text.now }
{
    match behind(letters, text) {
        Some(digits) => short_number(digits),
        None => None,
    }
}

fn front_size(text: &[u8]) -> usize
    ensures size { result ≡ front_size text.now }
    ensures within { result ≤ length text.now }
{
    text.iter().take_while(|b| is_word_byte(**b)).count()
}

fn front(text: &[u8]) -> &[u8]
    ensures { result.now ≡ front text.now }
{
    let (front, _) = text.split_at(front_size(text));
    front
}

fn back(text: &[u8]) -> &[u8]
    ensures { result.now ≡ back text.now }
{
    rest_after(text, front_size(text))
}

fn letter_area(letter: u8) -> Option<Area>
    ensures { result ≡ letter_area letter }
{
    match letter {
        b'I' => Some(Area::I),
        b'Q' => Some(Area::Q),
        b'M' => Some(Area::M),
        _ => None,
    }
}

fn letter_width(letter: u8) -> Option<Width>
    ensures { result ≡ letter_width letter }
{
    match letter {
        b'B' => Some(Width::Byte),
        b'W' => Some(Width::Word),
        b'D' => Some(Width::Dword),
        _ => None,
    }
}

fn bit_number(text: &[u8]) -> Option<u8>
    ensures { result ≡ bit_number text.now }
{
    match text {
        [b'.', digit] if matches!(digit, b'0'..=b'7') => Some(*digit - b'0'),
        _ => None,
    }
}

fn bit_actual(area: Area, text: &[u8]) -> Option<(Place, Width)>
    ensures { result ≡ bit_actual area text.now }
{
    let byte = u32::from(short_number(front(text))?);
    let bit = bit_number(back(text))?;
    Some((Place { area, byte, bit }, Width::Bit))
}

fn bytes_actual(area: Area, text: &[u8]) -> Option<(Place, Width)>
    ensures { result ≡ bytes_actual area text.now }
{
    match text {
        [letter, digits @ ..] => {
            let width = letter_width(letter.to_ascii_uppercase())?;
            let byte = u32::from(short_number(digits)?);
            Some((Place { area, byte, bit: 0 }, width))
        }
        [] => None,
    }
}

fn area_actual(text: &[u8]) -> Option<(Place, Width)>
    ensures { result ≡ area_actual text.now }
{
    match text {
        [letter, text @ ..] => {
            let area = letter_area(letter.to_ascii_uppercase())?;
            bit_actual(area, text).or(bytes_actual(area, text))
        }
        [] => None,
    }
}

fn part_of(area: Area, text: &[u8]) -> Option<(Place, Width)>
    ensures { result ≡ part_of area text.now }
{
    if let Some(bit) = behind(".DBX", text)
        && let Some(actual) = bit_actual(area, bit)
    {
        return Some(actual);
    }
    bytes_actual(area, behind(".DB", text)?)
}

fn block_actual(text: &[u8]) -> Option<(Place, Width)>
    ensures { result ≡ block_actual text.now }
{
    let number = number_behind("DB", front(text))?;
    part_of(Area::Db(number), back(text))
}

fn actual_of(text: &[u8]) -> Option<(Place, Width)>
    ensures { result ≡ actual_of text.now }
{
    area_actual(text).or(block_actual(text))
}

/// How many bytes come before the first comma.
fn piece_size(text: &[u8]) -> usize
    ensures size { result ≡ prefix_len (λ b. not (b == 44)) text.now }
    ensures within { result ≤ length text.now }
{
    text.iter().take_while(|b| **b != b',').count()
}

/// The actuals of a text, which are separated by commas.
fn actuals_in(alloc: Global, text: &[u8]) -> Result<Option<List<(Place, Width)>>, NoMemory>
    ensures { IfOk result (λ actuals. actuals ≡ actuals_in (pieces text.now)) }
{
    let mut actuals = List::new(alloc);
    let mut rest = text;
    loop {
        let (piece, behind) = rest.split_at(piece_size(rest));
        match actual_of(piece) {
            Some(actual) => actuals.push(actual)?,
            None => return Ok(None),
        }
        if behind.is_empty() {
            return Ok(Some(actuals));
        }
        rest = rest_after(behind, 1);
    }
}

fn actuals_behind(alloc: Global, text: &[u8]) -> Result<Option<List<(Place, Width)>>, NoMemory>
    ensures { IfOk result (λ actuals. actuals ≡ actuals_behind text.now) }
{
    let [first, rest @ ..] = text else {
        return Ok(Some(List::new(alloc)));
    };
    let (inside, close) = rest.split_at(rest.len().saturating_sub(1));
    if *first == b'(' && close == b")".as_slice() {
        actuals_in(alloc, inside)
    } else {
        Ok(None)
    }
}

fn block_meant(word: &[u8]) -> Option<BlockName>
    ensures { result ≡ block_meant word.now }
{
    if let Some(number) = number_behind("OB", word) {
        Some(BlockName::Ob(number))
    } else if let Some(number) = number_behind("FC", word) {
        Some(BlockName::Fc(number))
    } else if let Some(number) = number_behind("FB", word) {
        Some(BlockName::Fb(number))
    } else {
        None
    }
}

/// The call of a block, by what follows its name.
fn call_with(alloc: Global, block: BlockName, text: &[u8]) -> Result<Option<Call>, NoMemory>
    ensures { IfOk result (λ call. call ≡ call_with block text.now) }
{
    match block {
        BlockName::Ob(_) if text.is_empty() => Ok(Some(Call {
            block,
            instance: 0,
            actuals: List::new(alloc),
        })),
        BlockName::Ob(_) => Ok(None),
        BlockName::Fc(_) => match actuals_behind(alloc, text)? {
            Some(actuals) => Ok(Some(Call {
                block,
                instance: 0,
                actuals,
            })),
            None => Ok(None),
        },
        BlockName::Fb(_) => match number_behind("/DB", text) {
            Some(instance) => Ok(Some(Call {
                block,
                instance,
                actuals: List::new(alloc),
            })),
            None => Ok(None),
        },
    }
}

/// The call that a word means.
pub fn call_meant(alloc: Global, word: &[u8]) -> Result<Option<Call>, NoMemory>
    ensures { IfOk result (λ call. call ≡ call_meant word.now) }
{
    match block_meant(front(word)) {
        Some(block) => call_with(alloc, block, back(word)),
        None => Ok(None),
    }
}
