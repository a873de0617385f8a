//! Appending to a text.
ghost use Rattle.std.specs.Prelude.{◌≡◌, ◌++◌, decimal, OnOk};
ghost use Rattle.st_tree.specs.Spelling.{blanks, hexadecimal, integer_text};

use digit_texts::hex_digit;
use itoa::Buffer;
use s7_base::NoMemory;

/// Appends a text.
pub fn put_text(out: &mut Vec<u8>, text: &str) -> Result<(), NoMemory>
    ensures { OnOk result (out.new.items ≡ out.old.items ++ text.now) }
{
    out.extend_from_slice(text.as_bytes())?;
    Ok(())
}

/// Appends bytes as they are.
pub fn put_bytes(out: &mut Vec<u8>, bytes: &[u8]) -> Result<(), NoMemory>
    ensures { OnOk result (out.new.items ≡ out.old.items ++ bytes.now) }
{
    out.extend_from_slice(bytes)?;
    Ok(())
}

/// Appends a number in decimal digits without leading zeros.
pub fn put_number(out: &mut Vec<u8>, number: u64) -> Result<(), NoMemory>
    ensures { OnOk result (out.new.items ≡ out.old.items ++ decimal number) }
{
    let mut buffer = Buffer::new();
    put_text(out, buffer.format(number))
}

/// Appends a whole number, with `-` before it where it is below 0.
pub fn put_integer(out: &mut Vec<u8>, number: i64) -> Result<(), NoMemory>
    ensures { OnOk result (out.new.items ≡ out.old.items ++ integer_text number) }
{
    if number < 0 {
        put_text(out, "-")?;
    }
    put_number(out, number.unsigned_abs())
}

/// Appends the lowest hexadecimal digits of a number, as many as a count says, in capitals and with leading
/// zeros.
pub fn put_hexadecimal(out: &mut Vec<u8>, count: u32, number: u64) -> Result<(), NoMemory>
    ensures { OnOk result (out.new.items ≡ out.old.items ++ hexadecimal count number) }
{
    if count == 0 {
        return Ok(());
    }
    put_hexadecimal(out, count - 1, number / 16)?;
    out.push(hex_digit((number % 16) as u8))?;
    Ok(())
}

/// Appends four blanks for each level.
#[tactic(auto, using(crate::proofs::Pieces::blanks_behind))]
pub fn put_blanks(out: &mut Vec<u8>, level: usize) -> Result<(), NoMemory>
    ensures { OnOk result (out.new.items ≡ out.old.items ++ blanks level) }
{
    let count = level.checked_mul(4).ok_or(NoMemory)?;
    let size = out.len().checked_add(count).ok_or(NoMemory)?;
    out.resize(size, b' ')?;
    Ok(())
}
