//! The form of a line: an area, a byte number and fields.
ghost use Rattle.std.specs.Prelude.{◌≡◌, length, option_map, IfSome};
ghost use Rattle.std.specs.List.{list_any, slice_split};
ghost use Rattle.image_text.specs.Image.{area_of_letter, area_of, is_blank, is_empty, area_line_of, line_of_parts, values_of};
ghost use Rattle.image_text.specs.inner.Fields.{IsNamed, area_kept, block_kept, pieces_left, area_line_kept, view};

use crate::number::{byte_number, byte_of, image_number};
use crate::pieces::{cut_piece, next_piece};
use memory_areas::Area;

/// A line of the right form: where its bytes go, and its fields, each after a blank. A number of a data block
/// above 65,535 is kept as 0, which no block has.
#[derive(Clone, Copy)]
pub struct AreaLine<'a> {
    pub area: Area,
    pub byte: u32,
    pub fields: &'a [u8],
}

fn area_of_letter(letter: u8) -> Option<Area>
    ensures value { result ≡ area_of_letter letter }
    ensures named { IfSome result IsNamed }
{
    match letter {
        b'I' => Some(Area::I),
        b'Q' => Some(Area::Q),
        b'M' => Some(Area::M),
        _ => None,
    }
}

fn block_kept(number: u32) -> u16
    ensures { result ≡ block_kept number }
{
    if number < 65536 { number as u16 } else { 0 }
}

fn area_of(word: &[u8]) -> Option<Area>
    ensures value { result ≡ option_map area_kept (area_of word.now) }
    ensures named { IfSome result IsNamed }
{
    match word {
        [letter] => area_of_letter(*letter),
        [b'D', b'B', digits @ ..] => {
            let number = image_number(digits)?;
            Some(Area::Db(block_kept(number)))
        }
        _ => None,
    }
}

fn has_empty(fields: &[u8]) -> bool
    ensures { result ≡ list_any is_empty (pieces_left is_blank fields.now) }
{
    let mut left = fields;
    while !left.is_empty() {
        let (field, behind) = next_piece(left);
        if field.is_empty() {
            return true;
        }
        left = behind;
    }
    false
}

fn line_of_parts(area: Option<Area>, byte: Option<u32>, fields: &[u8]) -> Option<AreaLine<'_>>
    requires { IfSome area IsNamed }
    ensures area_line { option_map view result ≡ line_of_parts area byte (pieces_left is_blank fields.now) }
    ensures named { IfSome result (λ s. IsNamed s.area) }
{
    let area = area?;
    let byte = byte?;
    if has_empty(fields) {
        None
    } else {
        Some(AreaLine { area, byte, fields })
    }
}

/// The form of a line, if it has one.
pub fn area_line_of(line: &[u8]) -> Option<AreaLine<'_>>
    ensures area_line { option_map view result ≡ option_map area_line_kept (area_line_of (slice_split is_blank line.now)) }
    ensures named { IfSome result (λ s. IsNamed s.area) }
{
    let (name, behind) = cut_piece(line);
    if behind.is_empty() {
        return None;
    }
    let (number, fields) = next_piece(behind);
    if fields.is_empty() {
        return None;
    }
    line_of_parts(area_of(name), byte_number(number), fields)
}

/// How many fields a line has, if each writes a byte.
pub fn count_bytes(fields: &[u8]) -> Option<usize>
    ensures { result ≡ option_map length (values_of (pieces_left is_blank fields.now)) }
{
    let mut left = fields;
    let mut count = 0;
    while !left.is_empty() {
        let (field, behind) = next_piece(left);
        byte_of(field)?;
        count += 1;
        left = behind;
    }
    Some(count)
}
