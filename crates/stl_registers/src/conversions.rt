//! The instructions on ACCU1 alone.
ghost use Rattle.std.specs.Prelude.{◌≡◌, ◌-◌, ◌<◌, ◌^◌, IfSome, MatchResult, Ok, Err};
ghost use Rattle.memory_areas.specs.Access.{bits_wide};
ghost use Rattle.s7_base.specs.declared.word.Width.TheVariants.{Dword, Word};
ghost use Rattle.stl_registers.specs.Values.{values};
ghost use Rattle.stl_tree.specs.Accumulators.{part};
ghost use Rattle.stl_tree.specs.Conversions.{after_conversion, after_extension, from_digits, with_accu1_part, to_digits, with_digits, with_value_of_digits};

use crate::accumulators::{part, pattern, signed_part, with_number, with_part};
use crate::registers::Registers;
use bcd_words::{bcd3_to_int, bcd7_to_dint, dint_to_bcd7, int_to_bcd3};
use s7_base::{Fault, Width, low_word};
use stl_tree::UnaryRow;

/// The lowest bits, as many as a width has, each inverted.
fn inverse_part(width: Width, a: u32) -> u32
    ensures value { result ≡ 2 ^ bits_wide width - 1 - part width a }
    ensures few { result < 2 ^ bits_wide width }
{
    part(width, !a)
}

impl Registers {
    /// A part of ACCU1 takes other bits.
    fn with_accu1_part(self, width: Width, p: u32) -> Registers
        requires { p < 2 ^ bits_wide width }
        ensures { values result ≡ with_accu1_part width p (values self) }
    {
        Registers {
            accu1: with_part(width, self.accu1, p),
            ..self
        }
    }

    /// A part of ACCU1 takes the number that its digits say.
    fn with_value_of_digits(
        self,
        width: Width,
        value: Result<i32, Fault>,
    ) -> Result<Registers, Fault>
        ensures { MatchResult result
            (λ after. with_value_of_digits width (values self) value ≡ Ok (values after))
            (λ fault. with_value_of_digits width (values self) value ≡ Err fault) }
    {
        match value {
            Ok(number) => Ok(Registers {
                accu1: with_number(width, self.accu1, i64::from(number)),
                ..self
            }),
            Err(fault) => Err(fault),
        }
    }

    /// `BTI`: three digits in the low word of ACCU1 become a number.
    fn word_from_digits(self) -> Result<Registers, Fault>
        ensures { MatchResult result
            (λ after. from_digits Word 3 (values self) ≡ Ok (values after))
            (λ fault. from_digits Word 3 (values self) ≡ Err fault) }
    {
        let value = bcd3_to_int(low_word(self.accu1)).map(i32::from);
        self.with_value_of_digits(Width::Word, value)
    }

    /// `BTD`: seven digits in ACCU1 become a number.
    fn dword_from_digits(self) -> Result<Registers, Fault>
        ensures { MatchResult result
            (λ after. from_digits Dword 7 (values self) ≡ Ok (values after))
            (λ fault. from_digits Dword 7 (values self) ≡ Err fault) }
    {
        self.with_value_of_digits(Width::Dword, bcd7_to_dint(self.accu1))
    }

    /// A part of ACCU1 takes digits; where there are none it is an overflow, and ACCU1 keeps its value.
    fn with_digits(self, width: Width, digits: Option<u32>) -> Registers
        requires { IfSome digits (λ p. p < 2 ^ bits_wide width) }
        ensures { values result ≡ with_digits width digits (values self) }
    {
        match digits {
            Some(digits) => Registers {
                accu1: with_part(width, self.accu1, digits),
                status: self.status.converted(false),
                ..self
            },
            None => Registers {
                status: self.status.converted(true),
                ..self
            },
        }
    }

    /// `ITB`: the number in the low word of ACCU1 becomes three digits.
    fn word_to_digits(self) -> Registers
        ensures { values result ≡ to_digits Word 3 (values self) }
    {
        let number = low_word(self.accu1).cast_signed();
        self.with_digits(Width::Word, int_to_bcd3(number).map(u32::from))
    }

    /// `DTB`: the number in ACCU1 becomes seven digits.
    fn dword_to_digits(self) -> Registers
        ensures { values result ≡ to_digits Dword 7 (values self) }
    {
        self.with_digits(Width::Dword, dint_to_bcd7(self.accu1.cast_signed()))
    }

    /// `ITD`: the number in the low word of ACCU1 becomes one of 32 bits.
    fn after_extension(self) -> Registers
        ensures { values result ≡ after_extension (values self) }
    {
        let number = i64::from(signed_part(Width::Word, self.accu1));
        Registers {
            accu1: pattern(Width::Dword, number),
            ..self
        }
    }

    /// An instruction on ACCU1 alone, or its fault.
    pub fn after_conversion(self, of: UnaryRow) -> Result<Registers, Fault>
        ensures { MatchResult result
            (λ after. after_conversion of (values self) ≡ Ok (values after))
            (λ fault. after_conversion of (values self) ≡ Err fault) }
    {
        match of {
            UnaryRow::Bti => self.word_from_digits(),
            UnaryRow::Btd => self.dword_from_digits(),
            UnaryRow::Itb => Ok(self.word_to_digits()),
            UnaryRow::Dtb => Ok(self.dword_to_digits()),
            UnaryRow::Itd => Ok(self.after_extension()),
            UnaryRow::Invi => Ok(self.with_accu1_part(
                Width::Word,
                inverse_part(Width::Word, self.accu1),
            )),
            UnaryRow::Invd => Ok(self.with_accu1_part(
                Width::Dword,
                inverse_part(Width::Dword, self.accu1),
            )),
            UnaryRow::Caw => {
                let reversed = low_word(self.accu1).swap_bytes();
                Ok(self.with_accu1_part(Width::Word, u32::from(reversed)))
            }
            UnaryRow::Cad => Ok(self.with_accu1_part(Width::Dword, self.accu1.swap_bytes())),
            UnaryRow::Negi => Ok(self.after_negation(Width::Word)),
            UnaryRow::Negd => Ok(self.after_negation(Width::Dword)),
        }
    }
}
