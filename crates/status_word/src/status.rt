//! The status word, and what instructions make of it.
ghost use Rattle.std.specs.Prelude.{◌≡◌};
ghost use Rattle.status_word.specs.Flags.{bits, bits_of, flag_of, from_word, place, with_flag, word_of};
ghost use Rattle.status_word.specs.Results.{after_compared, after_converted, after_logic, after_shifted, after_signed, after_zero_divisor, with_overflow};
ghost use Rattle.status_word.specs.StatusBits.{after_check, after_clear, after_close, after_edge, after_end, after_jump, after_not, after_open, after_or, after_save, after_set, after_store, answer_to, orb_after, with_bracket_entry, rlo_after, rlo_at_edge};

use crate::test::{Flag, Test};
use s7_base::{Check, Entry};

impl Flag {
    /// The number of the flag's bit in the status word, from 0.
    fn place(self) -> u16
        ensures { result ≡ place self }
    {
        self as u16
    }
}

/// The status word. `Status(0)` is the one at the first instruction.
#[derive(Clone, Copy, Debug, PartialEq, Eq)]
pub struct Status(pub u16);

impl Status {
    /// The value of a flag.
    #[tactic(auto, using(crate::proofs::Packing::flag_laws))]
    pub fn get(self, f: Flag) -> bool
        ensures { result ≡ flag_of f (bits self) }
    {
        self.0 >> f.place() & 1 == 1
    }

    /// The status word with another value of a flag.
    #[tactic(auto, using(crate::proofs::Packing::flag_laws))]
    pub fn put(self, f: Flag, v: bool) -> Status
        ensures { bits result ≡ with_flag f v (bits self) }
    {
        let bit = 1 << f.place();
        if v {
            Status(self.0 | bit)
        } else {
            Status(self.0 & !bit)
        }
    }

    /// The answer to a test of the status word.
    pub fn test(self, t: Test) -> bool
        ensures { result ≡ answer_to t (bits self) }
    {
        let cc0 = self.get(Flag::Cc0);
        let cc1 = self.get(Flag::Cc1);
        match t {
            Test::Eq => !cc1 && !cc0,
            Test::Ne => cc1 != cc0,
            Test::Gt => cc1 && !cc0,
            Test::Lt => !cc1 && cc0,
            Test::Ge => !cc0,
            Test::Le => !cc1,
            Test::Uo => cc1 && cc0,
            Test::Ov => self.get(Flag::Ov),
            Test::Os => self.get(Flag::Os),
            Test::Br => self.get(Flag::Br),
        }
    }

    fn rlo_after(self, check: Check, bit: bool) -> bool
        ensures { result ≡ rlo_after check bit (bits self) }
    {
        let nfc = self.get(Flag::Nfc);
        let rlo = self.get(Flag::Rlo);
        let orb = self.get(Flag::Orb);
        match check {
            Check::A => (rlo || !nfc) && bit || orb,
            Check::An => (rlo || !nfc) && !bit || orb,
            Check::O => bit || nfc && rlo,
            Check::On => !bit || nfc && rlo,
            Check::X => bit != (nfc && rlo),
            Check::Xn => bit == (nfc && rlo),
        }
    }

    fn orb_after(self, check: Check) -> bool
        ensures { result ≡ orb_after check (bits self) }
    {
        match check {
            Check::A | Check::An => self.get(Flag::Orb),
            Check::O | Check::On | Check::X | Check::Xn => false,
        }
    }

    /// The status word after `A`, `AN`, `O`, `ON`, `X` or `XN` of a bit.
    pub fn checked(self, c: Check, value: bool) -> Status
        ensures { bits result ≡ after_check c value (bits self) }
    {
        self.put(Flag::Rlo, self.rlo_after(c, value))
            .put(Flag::Orb, self.orb_after(c))
            .put(Flag::Sta, value)
            .put(Flag::Nfc, true)
    }

    /// The status word after `O` without operand.
    pub fn and_before_or(self) -> Status
        ensures { bits result ≡ after_or (bits self) }
    {
        self.put(Flag::Orb, self.get(Flag::Rlo) && self.get(Flag::Nfc))
            .put(Flag::Sta, true)
            .put(Flag::Nfc, false)
    }

    /// The status word after an opening bracket, once what it keeps is kept.
    pub fn opened(self) -> Status
        ensures { bits result ≡ after_open (bits self) }
    {
        self.put(Flag::Orb, false)
            .put(Flag::Sta, true)
            .put(Flag::Nfc, false)
    }

    fn with_bracket_entry(self, e: Entry) -> Status
        ensures { bits result ≡ with_bracket_entry e (bits self) }
    {
        self.put(Flag::Rlo, e.rlo)
            .put(Flag::Orb, e.orb)
            .put(Flag::Nfc, e.nfc)
    }

    /// The status word after a closing bracket, by what was kept when it was opened.
    pub fn closed(self, e: Entry) -> Status
        ensures { bits result ≡ after_close e (bits self) }
    {
        self.with_bracket_entry(e)
            .checked(e.check, self.get(Flag::Rlo))
            .put(Flag::Sta, true)
    }

    /// The status word after `=`, `S` or `R`, by the new value of the bit.
    pub fn stored(self, bit: bool) -> Status
        ensures { bits result ≡ after_store bit (bits self) }
    {
        self.put(Flag::Sta, bit)
            .put(Flag::Orb, false)
            .put(Flag::Nfc, false)
    }

    /// The status word after `SET`.
    pub fn set_rlo(self) -> Status
        ensures { bits result ≡ after_set (bits self) }
    {
        self.put(Flag::Rlo, true).stored(true)
    }

    /// The status word after `CLR`.
    pub fn clear_rlo(self) -> Status
        ensures { bits result ≡ after_clear (bits self) }
    {
        self.put(Flag::Rlo, false).stored(false)
    }

    /// The status word after `NOT`.
    pub fn negated(self) -> Status
        ensures { bits result ≡ after_not (bits self) }
    {
        self.put(Flag::Rlo, !self.get(Flag::Rlo))
            .put(Flag::Sta, true)
    }

    /// The status word after `SAVE`.
    pub fn saved(self) -> Status
        ensures { bits result ≡ after_save (bits self) }
    {
        self.put(Flag::Br, self.get(Flag::Rlo))
    }

    fn rlo_at_edge(self, rising: bool, old: bool) -> bool
        ensures { result ≡ rlo_at_edge rising old (bits self) }
    {
        self.get(Flag::Rlo) == rising && old != rising
    }

    /// The status word after `FP`, where the edge is a rising one, or `FN`, by the edge bit as it was.
    pub fn edge(self, rising: bool, old: bool) -> Status
        ensures { bits result ≡ after_edge rising old (bits self) }
    {
        let found = self.rlo_at_edge(rising, old);
        self.put(Flag::Rlo, found)
            .put(Flag::Sta, found)
            .put(Flag::Orb, false)
            .put(Flag::Nfc, true)
    }

    fn with_overflow(self, over: bool) -> Status
        ensures { bits result ≡ with_overflow over (bits self) }
    {
        self.put(Flag::Ov, over)
            .put(Flag::Os, self.get(Flag::Os) || over)
    }

    /// The status word after a calculation, by the value whose sign is shown, and whether it overflowed.
    pub fn signed(self, value: i64, over: bool) -> Status
        ensures { bits result ≡ after_signed value over (bits self) }
    {
        self.put(Flag::Cc1, value > 0)
            .put(Flag::Cc0, value < 0)
            .with_overflow(over)
    }

    /// The status word after a division by 0.
    pub fn zero_divisor(self) -> Status
        ensures { bits result ≡ after_zero_divisor (bits self) }
    {
        self.put(Flag::Cc1, true)
            .put(Flag::Cc0, true)
            .put(Flag::Ov, true)
            .put(Flag::Os, true)
    }

    /// The status word after `ITB` or `DTB`, by whether the number is out of range.
    pub fn converted(self, over: bool) -> Status
        ensures { bits result ≡ after_converted over (bits self) }
    {
        self.with_overflow(over)
    }

    /// The status word after a comparison of the number `a` in ACCU2 with `b` in ACCU1, by its result.
    pub fn compared(self, a: i32, b: i32, holds: bool) -> Status
        ensures { bits result ≡ after_compared a b holds (bits self) }
    {
        self.put(Flag::Rlo, holds)
            .put(Flag::Cc1, a > b)
            .put(Flag::Cc0, a < b)
            .put(Flag::Ov, false)
            .put(Flag::Orb, false)
            .put(Flag::Sta, holds)
            .put(Flag::Nfc, true)
    }

    /// The status word after a shift or a rotation by one bit or more, by the last bit that was shifted out.
    pub fn shifted(self, out: bool) -> Status
        ensures { bits result ≡ after_shifted out (bits self) }
    {
        self.put(Flag::Cc1, out)
            .put(Flag::Cc0, false)
            .put(Flag::Ov, false)
    }

    /// The status word after word logic, by whether its result is other than zero.
    pub fn logic(self, nonzero: bool) -> Status
        ensures { bits result ≡ after_logic nonzero (bits self) }
    {
        self.shifted(nonzero)
    }

    /// The status word after `JC`, whether it jumps or not.
    pub fn after_jump(self) -> Status
        ensures { bits result ≡ after_jump (bits self) }
    {
        self.opened().put(Flag::Rlo, true)
    }

    /// The status word after `CALL`, once its block is called.
    pub fn called(self) -> Status
        ensures { bits result ≡ after_end (bits self) }
    {
        self.ended()
    }

    /// The status word after the end word of a block.
    pub fn ended(self) -> Status
        ensures { bits result ≡ after_end (bits self) }
    {
        self.opened().put(Flag::Os, false)
    }

    /// The word that `L STW` loads.
    pub fn word(self) -> u16
        ensures { result ≡ word_of (bits self) }
    {
        u16::from(self.get(Flag::Rlo)) * 0x2
            + u16::from(self.get(Flag::Os)) * 0x10
            + u16::from(self.get(Flag::Ov)) * 0x20
            + u16::from(self.get(Flag::Cc0)) * 0x40
            + u16::from(self.get(Flag::Cc1)) * 0x80
            + u16::from(self.get(Flag::Br)) * 0x100
    }

    /// The status word after `T STW` of this word.
    pub fn from_word(self, w: u16) -> Status
        ensures { bits result ≡ from_word (bits_of w) (bits self) }
    {
        let word = Status(w);
        self.put(Flag::Rlo, word.get(Flag::Rlo))
            .put(Flag::Os, word.get(Flag::Os))
            .put(Flag::Ov, word.get(Flag::Ov))
            .put(Flag::Cc0, word.get(Flag::Cc0))
            .put(Flag::Cc1, word.get(Flag::Cc1))
            .put(Flag::Br, word.get(Flag::Br))
    }
}
