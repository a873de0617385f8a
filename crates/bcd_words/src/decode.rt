//! What a pattern in binary-coded decimal says.
ghost use Rattle.std.specs.Prelude.{◌≡◌, ◌≤◌, ◌<◌, ◌^◌};
ghost use Rattle.bcd_words.specs.Bcd.{digits, worth, are_decimal, is_negative, with_sign, bcd_value};

use s7_base::Fault;

/// The number that a word says in three digits, -999 to 999, or the fault of a digit above 9.
pub fn bcd3_to_int(w: u16) -> Result<i16, Fault>
    ensures { result ≡ bcd_value 3 w }
{
    if are_decimal3(w) {
        Ok(with_sign(w >= 0x8000, worth3(w)))
    } else {
        Err(Fault::BcdDigit)
    }
}

/// The number that a double word says in seven digits, -9,999,999 to 9,999,999, or the fault of a digit above
/// 9.
pub fn bcd7_to_dint(w: u32) -> Result<i32, Fault>
    ensures { result ≡ bcd_value 7 w }
{
    if are_decimal7(w) {
        Ok(with_sign_wide(w >= 0x8000_0000, worth7(w)))
    } else {
        Err(Fault::BcdDigit)
    }
}

fn are_decimal3(w: u16) -> bool
    ensures { result ≡ are_decimal (digits 16 3 w) }
{
    w % 16 <= 9 && w / 0x10 % 16 <= 9 && w / 0x100 % 16 <= 9
}

fn are_decimal7(w: u32) -> bool
    ensures { result ≡ are_decimal (digits 16 7 w) }
{
    w % 16 <= 9
        && w / 0x10 % 16 <= 9
        && w / 0x100 % 16 <= 9
        && w / 0x1000 % 16 <= 9
        && w / 0x1_0000 % 16 <= 9
        && w / 0x10_0000 % 16 <= 9
        && w / 0x100_0000 % 16 <= 9
}

fn worth3(w: u16) -> u16
    ensures value { result ≡ worth 10 (digits 16 3 w) }
    ensures few { result < 2 ^ 15 }
{
    w % 16 + w / 0x10 % 16 * 10 + w / 0x100 % 16 * 100
}

fn worth7(w: u32) -> u32
    ensures value { result ≡ worth 10 (digits 16 7 w) }
    ensures few { result < 2 ^ 31 }
{
    w % 16
        + w / 0x10 % 16 * 10
        + w / 0x100 % 16 * 100
        + w / 0x1000 % 16 * 1000
        + w / 0x1_0000 % 16 * 10_000
        + w / 0x10_0000 % 16 * 100_000
        + w / 0x100_0000 % 16 * 1_000_000
}

fn with_sign(negative: bool, amount: u16) -> i16
    requires { amount < 2 ^ 15 }
    ensures { result ≡ with_sign negative amount }
{
    let number = amount as i16;
    if negative { -number } else { number }
}

fn with_sign_wide(negative: bool, amount: u32) -> i32
    requires { amount < 2 ^ 31 }
    ensures { result ≡ with_sign negative amount }
{
    let number = amount as i32;
    if negative { -number } else { number }
}
