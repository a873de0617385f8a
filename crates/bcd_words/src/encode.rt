//! Which pattern in binary-coded decimal is written for a number.
ghost use Rattle.std.specs.Prelude.{◌≡◌, ◌<◌, ◌^◌, ◌*◌, ◌++◌, ◌∷◌, [], unsigned_abs};
ghost use Rattle.bcd_words.specs.Bcd.{digits, worth, sign_digit, bcd_of};

/// The word that says a number in three digits; none past 999 on either side of 0.
pub fn int_to_bcd3(v: i16) -> Option<u16>
    ensures { result ≡ bcd_of 3 v }
{
    let amount = v.unsigned_abs();
    if amount < 1000 {
        Some(pattern3(amount, sign_digit(i32::from(v))))
    } else {
        None
    }
}

/// The double word that says a number in seven digits; none past 9,999,999 on either side of 0.
pub fn dint_to_bcd7(v: i32) -> Option<u32>
    ensures { result ≡ bcd_of 7 v }
{
    let amount = v.unsigned_abs();
    if amount < 10_000_000 {
        Some(pattern7(amount, sign_digit(v)))
    } else {
        None
    }
}

fn sign_digit(v: i32) -> u8
    ensures value { result ≡ sign_digit v }
    ensures few { result < 16 }
{
    if v < 0 { 0xF } else { 0 }
}

fn pattern3(amount: u16, sign: u8) -> u16
    requires { sign < 16 }
    ensures { result ≡ worth 16 (digits 10 3 amount ++ sign ∷ []) }
{
    amount % 10 + amount / 10 % 10 * 0x10 + amount / 100 % 10 * 0x100 + u16::from(sign) * 0x1000
}

fn pattern7(amount: u32, sign: u8) -> u32
    requires { sign < 16 }
    ensures { result ≡ worth 16 (digits 10 7 amount ++ sign ∷ []) }
{
    amount % 10
        + amount / 10 % 10 * 0x10
        + amount / 100 % 10 * 0x100
        + amount / 1000 % 10 * 0x1000
        + amount / 10_000 % 10 * 0x1_0000
        + amount / 100_000 % 10 * 0x10_0000
        + amount / 1_000_000 % 10 * 0x100_0000
        + u32::from(sign) * 0x1000_0000
}
