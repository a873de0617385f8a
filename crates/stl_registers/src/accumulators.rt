//! Parts of the accumulators, and the instructions that load, store and move them.
ghost use Rattle.std.specs.Prelude.{◌≡◌, ◌<◌, ◌^◌};
ghost use Rattle.memory_areas.specs.Access.{bits_wide};
ghost use Rattle.s7_base.specs.SignedNumbers.{pattern};
ghost use Rattle.s7_base.specs.declared.word.Width.TheVariants.{Byte};
ghost use Rattle.stl_registers.specs.Values.{values};
ghost use Rattle.stl_tree.specs.Accumulators.{accu_popped, accu_pushed, accus_exchanged, counted_down, counted_up, after_addition, after_load, part, signed_part, status_loaded, status_stored, with_number, with_part};

use crate::registers::Registers;
use s7_base::{Width, low_byte, low_word, put_low_byte, put_low_word};

/// The lowest bits of a register, as many as a width has.
pub fn part(width: Width, a: u32) -> u32
    ensures value { result ≡ part width a }
    ensures few { result < 2 ^ bits_wide width }
{
    match width {
        Width::Bit => a % 2,
        Width::Byte => u32::from(low_byte(a)),
        Width::Word => u32::from(low_word(a)),
        Width::Dword => a,
    }
}

/// The number of the lowest bits, as many as a width has, the highest of them being the sign.
pub fn signed_part(width: Width, a: u32) -> i32
    ensures { result ≡ signed_part width a }
{
    match width {
        Width::Bit => if a % 2 == 1 { -1 } else { 0 },
        Width::Byte => i32::from(low_byte(a).cast_signed()),
        Width::Word => i32::from(low_word(a).cast_signed()),
        Width::Dword => a.cast_signed(),
    }
}

/// A register with other lowest bits, as many as a width has.
pub fn with_part(width: Width, a: u32, p: u32) -> u32
    requires { p < 2 ^ bits_wide width }
    ensures { result ≡ with_part width a p }
{
    match width {
        Width::Bit => a / 2 * 2 + p,
        Width::Byte => put_low_byte(a, p as u8),
        Width::Word => put_low_word(a, p as u16),
        Width::Dword => p,
    }
}

/// The pattern of a number in 32 bits.
fn dword_pattern(z: i64) -> u32
    ensures { result ≡ pattern 32 z }
{
    (z.cast_unsigned() & 0xffff_ffff) as u32
}

/// The pattern of a number in a width.
pub fn pattern(width: Width, z: i64) -> u32
    ensures value { result ≡ pattern (bits_wide width) z }
    ensures few { result < 2 ^ bits_wide width }
{
    part(width, dword_pattern(z))
}

/// A register whose lowest bits, as many as a width has, are the pattern of a number.
pub fn with_number(width: Width, a: u32, z: i64) -> u32
    ensures { result ≡ with_number width a z }
{
    with_part(width, a, pattern(width, z))
}

impl Registers {
    /// `L` of a number: ACCU1 takes it, and ACCU2 takes the old value of ACCU1.
    pub fn after_load(self, v: u32) -> Registers
        ensures { values result ≡ after_load v (values self) }
    {
        Registers {
            accu1: v,
            accu2: self.accu1,
            ..self
        }
    }

    /// `L STW`: loads the status word.
    pub fn status_loaded(self) -> Registers
        ensures { values result ≡ status_loaded (values self) }
    {
        self.after_load(u32::from(self.status.word()))
    }

    /// `T STW`: six bits of the status word are taken from ACCU1.
    #[tactic(auto, using(crate::proofs::StatusWord::low_bits))]
    pub fn status_stored(self) -> Registers
        ensures { values result ≡ status_stored (values self) }
    {
        Registers {
            status: self.status.from_word(low_word(self.accu1)),
            ..self
        }
    }

    /// `TAK`: ACCU1 and ACCU2 exchange their values.
    pub fn accus_exchanged(self) -> Registers
        ensures { values result ≡ accus_exchanged (values self) }
    {
        Registers {
            accu1: self.accu2,
            accu2: self.accu1,
            ..self
        }
    }

    /// `PUSH`: ACCU2 takes the value of ACCU1.
    pub fn accu_pushed(self) -> Registers
        ensures { values result ≡ accu_pushed (values self) }
    {
        Registers {
            accu2: self.accu1,
            ..self
        }
    }

    /// `POP`: ACCU1 takes the value of ACCU2.
    pub fn accu_popped(self) -> Registers
        ensures { values result ≡ accu_popped (values self) }
    {
        Registers {
            accu1: self.accu2,
            ..self
        }
    }

    /// `+ n` and `+ L#n`: adds a number to that in a part of ACCU1.
    pub fn after_addition(self, width: Width, n: i32) -> Registers
        ensures { values result ≡ after_addition width n (values self) }
    {
        let sum = i64::from(signed_part(width, self.accu1)) + i64::from(n);
        Registers {
            accu1: with_number(width, self.accu1, sum),
            ..self
        }
    }

    /// The registers with another lowest byte in ACCU1.
    fn with_low_byte(self, byte: u8) -> Registers
        ensures { values result ≡ record (values self) { accu1 = with_part Byte self.accu1 byte } }
    {
        Registers {
            accu1: put_low_byte(self.accu1, byte),
            ..self
        }
    }

    /// `INC`: adds a number to the lowest byte of ACCU1, which wraps.
    pub fn counted_up(self, n: u8) -> Registers
        ensures { values result ≡ counted_up n (values self) }
    {
        self.with_low_byte(low_byte(self.accu1).wrapping_add(n))
    }

    /// `DEC`: subtracts a number from the lowest byte of ACCU1, which wraps.
    pub fn counted_down(self, n: u8) -> Registers
        ensures { values result ≡ counted_down n (values self) }
    {
        self.with_low_byte(low_byte(self.accu1).wrapping_sub(n))
    }
}
