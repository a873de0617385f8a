//! Shifts and rotations, by their closed forms.
ghost use Rattle.std.specs.Prelude.{◌≡◌, ◌<◌, ◌≤◌, ◌^◌};
ghost use Rattle.memory_areas.specs.Access.{bits_wide};
ghost use Rattle.stl_registers.specs.Values.{values};
ghost use Rattle.stl_tree.specs.Shifts.{after_shift, around_left, around_left_through_cc1, around_right, around_right_through_cc1, count_of, leaving, left, right, right_signed, after_shift_steps, step, times, width_of};

use crate::accumulators::{part, with_part};
use crate::registers::Registers;
use s7_base::{Width, low_byte, low_word};
use status_word::Flag;
use stl_tree::ShiftRow;

/// The width that an instruction shifts.
fn width_of(of: ShiftRow) -> Width
    ensures { result ≡ width_of of }
{
    match of {
        ShiftRow::Slw | ShiftRow::Srw | ShiftRow::Ssi => Width::Word,
        ShiftRow::Sld | ShiftRow::Srd | ShiftRow::Ssd | ShiftRow::Rld | ShiftRow::Rrd => {
            Width::Dword
        }
    }
}

/// A word shifted to the left.
#[tactic(auto, using(crate::proofs::Moves::word_left, crate::proofs::Moves::word_gone))]
fn word_left(n: u8, p: u32) -> u32
    requires { p < 2 ^ 16 }
    ensures value { result ≡ times n (left 16) p }
    ensures few { result < 2 ^ 16 }
{
    if n >= 16 {
        0
    } else {
        u32::from(low_word(p << n))
    }
}

/// A double word shifted to the left.
#[tactic(auto, using(crate::proofs::Moves::dword_left, crate::proofs::Moves::dword_gone))]
fn dword_left(n: u8, p: u32) -> u32
    ensures { result ≡ times n (left 32) p }
{
    if n >= 32 { 0 } else { p << n }
}

/// A word or a double word shifted to the right.
#[tactic(auto, using(stl_tree::proofs::ShiftForms::right_times, crate::proofs::Moves::right_gone))]
fn right(n: u8, p: u32) -> u32
    ensures value { result ≡ times n right p }
    ensures few { result ≤ p }
{
    if n >= 32 { 0 } else { p >> n }
}

/// A word shifted to the right, with its sign shifted in.
#[tactic(auto, using(crate::proofs::Moves::word_sign_zero, crate::proofs::Moves::word_sign_one))]
fn word_right_signed(n: u8, p: u32) -> u32
    requires { p < 2 ^ 16 }
    ensures value { result ≡ times n (right_signed 16) p }
    ensures few { result < 2 ^ 16 }
{
    if p < 0x8000 {
        right(n, p)
    } else {
        0xffff - right(n, 0xffff - p)
    }
}

/// A double word shifted to the right, with its sign shifted in.
#[tactic(auto, using(crate::proofs::Moves::dword_sign_zero, crate::proofs::Moves::dword_sign_one))]
fn dword_right_signed(n: u8, p: u32) -> u32
    ensures { result ≡ times n (right_signed 32) p }
{
    if p < 0x8000_0000 {
        right(n, p)
    } else {
        0xffff_ffff - right(n, 0xffff_ffff - p)
    }
}

/// A double word rotated to the left.
#[tactic(auto, using(crate::proofs::Moves::turned_left, crate::proofs::Moves::turned_left_below))]
fn around_left(n: u8, p: u32) -> u32
    ensures { result ≡ times n (around_left 32) p }
{
    let wide = u64::from(p) << (n % 32);
    (wide % 0x1_0000_0000 + wide / 0x1_0000_0000) as u32
}

/// A double word rotated to the right: to the left by what is left to 32.
#[tactic(auto, using(stl_tree::proofs::ShiftForms::around_right_times_left))]
fn around_right(n: u8, p: u32) -> u32
    ensures { result ≡ times n (around_right 32) p }
{
    around_left(32 - n % 32, p)
}

/// A pattern after some steps of a shift or a rotation.
fn after_steps(of: ShiftRow, n: u8, p: u32) -> u32
    requires { p < 2 ^ bits_wide (width_of of) }
    ensures value { result ≡ times n (step of) p }
    ensures few { result < 2 ^ bits_wide (width_of of) }
{
    match of {
        ShiftRow::Slw => word_left(n, p),
        ShiftRow::Srw | ShiftRow::Srd => right(n, p),
        ShiftRow::Ssi => word_right_signed(n, p),
        ShiftRow::Sld => dword_left(n, p),
        ShiftRow::Ssd => dword_right_signed(n, p),
        ShiftRow::Rld => around_left(n, p),
        ShiftRow::Rrd => around_right(n, p),
    }
}

/// The bit that is shifted out in a step.
fn leaving(of: ShiftRow, p: u32) -> bool
    ensures { result ≡ leaving of p }
{
    match of {
        ShiftRow::Slw => p >= 0x8000,
        ShiftRow::Sld | ShiftRow::Rld => p >= 0x8000_0000,
        ShiftRow::Srw | ShiftRow::Ssi | ShiftRow::Srd | ShiftRow::Ssd | ShiftRow::Rrd => {
            p % 2 == 1
        }
    }
}

impl Registers {
    /// The registers after some steps of a shift or a rotation.
    fn after_shift_steps(self, of: ShiftRow, n: u8) -> Registers
        ensures { values result ≡ after_shift_steps of n (values self) }
    {
        if n == 0 {
            return self;
        }
        let width = width_of(of);
        let p = part(width, self.accu1);
        Registers {
            accu1: with_part(width, self.accu1, after_steps(of, n, p)),
            status: self.status.shifted(leaving(of, after_steps(of, n - 1, p))),
            ..self
        }
    }

    /// The count of a shift or a rotation: a constant, or the lowest byte of ACCU2.
    fn count_of(self, count: Option<u8>) -> u8
        ensures { result ≡ count_of count (values self) }
    {
        match count {
            Some(n) => n,
            None => low_byte(self.accu2),
        }
    }

    /// A shift or a rotation, by a constant or by ACCU2.
    pub fn after_shift(self, of: ShiftRow, count: Option<u8>) -> Registers
        ensures { values result ≡ after_shift of count (values self) }
    {
        self.after_shift_steps(of, self.count_of(count))
    }

    /// `RLDA`: ACCU1 and CC1 together, one step around to the left.
    pub fn around_left_through_cc1(self) -> Registers
        ensures { values result ≡ around_left_through_cc1 (values self) }
    {
        Registers {
            accu1: (self.accu1 << 1) + u32::from(self.status.get(Flag::Cc1)),
            status: self.status.shifted(self.accu1 >= 0x8000_0000),
            ..self
        }
    }

    /// `RRDA`: ACCU1 and CC1 together, one step around to the right.
    pub fn around_right_through_cc1(self) -> Registers
        ensures { values result ≡ around_right_through_cc1 (values self) }
    {
        Registers {
            accu1: u32::from(self.status.get(Flag::Cc1)) * 0x8000_0000 + self.accu1 / 2,
            status: self.status.shifted(self.accu1 % 2 == 1),
            ..self
        }
    }
}
