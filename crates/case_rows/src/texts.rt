//! Texts of a case: what a line of one says, with its escapes.
//!
//! A backslash begins an escape: `\n`, `\r`, `\t` and `\\`, `\xF6` for a byte, `\(NAME)` for the text of that
//! name, `\200{piece}` for a piece this many times, in which `\#` is the number of the turn. A backslash at
//! the end of a line removes the line end after it.
use crate::stop::Stop;
use itoa::Buffer;

/// A text that other texts include by its name.
#[derive(Drop)]
pub struct NamedText {
    pub name: String,
    pub text: Vec<u8>,
}

/// Writes what a line says. Returns whether its line end stays.
pub fn put_line(out: &mut Vec<u8>, line: &str, texts: &[NamedText]) -> Result<bool, Stop> {
    let mut rest = line;
    // Each turn takes a backslash.
    for _ in 0..line.len() {
        let Some((plain, sign)) = rest.split_once('\\') else {
            break;
        };
        out.extend_from_slice(plain.as_bytes())?;
        if sign.is_empty() {
            return Ok(false);
        }
        rest = put_sign(out, sign, texts)?;
    }
    out.extend_from_slice(rest.as_bytes())?;
    Ok(true)
}

/// Writes what the escape at the front means. Returns what follows it.
fn put_sign<'t>(out: &mut Vec<u8>, sign: &'t str, texts: &[NamedText]) -> Result<&'t str, Stop> {
    if let Some(named) = sign.strip_prefix('(') {
        let (name, rest) = named.split_once(')').ok_or(Stop::NoForm)?;
        put_named(out, name, texts)?;
        return Ok(rest);
    }
    match sign.split_once('{') {
        Some((count, repeated)) if is_number(count) => {
            let (piece, rest) = repeated.split_once('}').ok_or(Stop::NoForm)?;
            put_often(out, count, piece)?;
            Ok(rest)
        }
        _ => put_byte(out, sign, 0),
    }
}

fn is_number(text: &str) -> bool {
    text.parse::<u32>().is_ok()
}

fn put_named(out: &mut Vec<u8>, name: &str, texts: &[NamedText]) -> Result<(), Stop> {
    for text in texts {
        if text.name.as_str() == name {
            out.extend_from_slice(text.text.as_slice())?;
            return Ok(());
        }
    }
    Err(Stop::NoForm)
}

/// Writes a piece as often as its count says. One without the number of its turn is read once.
fn put_often(out: &mut Vec<u8>, count: &str, piece: &str) -> Result<(), Stop> {
    let count = count.parse::<u32>().map_err(|_| Stop::NoForm)?;
    if piece.find("\\#").is_some() {
        return put_turns(out, count, piece);
    }
    let mut once = Vec::new(*out.allocator());
    put_piece(&mut once, piece, 0)?;
    put_copies(out, count, once.as_slice())
}

fn put_copies(out: &mut Vec<u8>, count: u32, once: &[u8]) -> Result<(), Stop> {
    for _ in 0..count {
        out.extend_from_slice(once)?;
    }
    Ok(())
}

fn put_turns(out: &mut Vec<u8>, count: u32, piece: &str) -> Result<(), Stop> {
    for turn in 0..count {
        put_piece(out, piece, turn)?;
    }
    Ok(())
}

/// Writes a piece with its escapes replaced, as it is in this turn of its repetition, from 0.
fn put_piece(out: &mut Vec<u8>, piece: &str, turn: u32) -> Result<(), Stop> {
    let mut rest = piece;
    for _ in 0..piece.len() {
        let Some((plain, sign)) = rest.split_once('\\') else {
            break;
        };
        out.extend_from_slice(plain.as_bytes())?;
        rest = put_byte(out, sign, turn)?;
    }
    out.extend_from_slice(rest.as_bytes())?;
    Ok(())
}

/// Writes the byte or the number that the escape at the front means. Returns what follows it.
fn put_byte<'t>(out: &mut Vec<u8>, sign: &'t str, turn: u32) -> Result<&'t str, Stop> {
    if let Some(rest) = sign.strip_prefix('#') {
        let number = u64::from(turn) + 1;
        out.extend_from_slice(Buffer::new().format(number).as_bytes())?;
        return Ok(rest);
    }
    if let Some(digits) = sign.strip_prefix('x') {
        let byte = digits.get(..2).ok_or(Stop::NoForm)?;
        out.push(u8::from_str_radix(byte, 16).map_err(|_| Stop::NoForm)?)?;
        return Ok(digits.get(2..).unwrap_or(""));
    }
    for (letter, byte) in [('n', b'\n'), ('r', b'\r'), ('t', b'\t'), ('\\', b'\\')] {
        if let Some(rest) = sign.strip_prefix(letter) {
            out.push(byte)?;
            return Ok(rest);
        }
    }
    Err(Stop::NoForm)
}
