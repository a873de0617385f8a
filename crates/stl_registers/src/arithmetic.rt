//! Arithmetic and comparisons of the numbers in the accumulators.
ghost use Rattle.std.specs.Prelude.{◌≡◌, ◌≢◌, pos, ◌*ℤ◌, int_div, int_rem, neg_ℤ};
ghost use Rattle.memory_areas.specs.Access.{bits_wide};
ghost use Rattle.s7_base.specs.SignedNumbers.{is_over, wrapped};
ghost use Rattle.status_word.specs.Results.{after_zero_divisor};
ghost use Rattle.stl_registers.specs.Values.{values};
ghost use Rattle.stl_tree.specs.Arithmetic.{both_in_words, by_divisor, after_arithmetic, after_comparison, holds, after_negation, product_in, quotient_in_dword, remainder_in_dword, result_in, arithmetic_of_numbers, width_of};

use crate::accumulators::{pattern, signed_part, with_number};
use crate::registers::Registers;
use s7_base::Width;
use status_word::Test;
use stl_tree::Arith;

/// A number cut to a width, as a number with a sign.
fn wrapped(width: Width, z: i64) -> i64
    ensures { result ≡ wrapped (bits_wide width) z }
{
    i64::from(signed_part(width, pattern(width, z)))
}

/// Whether a number lies outside the range of a width.
fn is_over(width: Width, z: i64) -> bool
    ensures { result ≡ is_over (bits_wide width) z }
{
    wrapped(width, z) != z
}

/// The width of an arithmetic instruction.
fn width_of(of: Arith) -> Width
    ensures { result ≡ width_of of }
{
    match of {
        Arith::AddI | Arith::SubI | Arith::MulI | Arith::DivI => Width::Word,
        Arith::AddD | Arith::SubD | Arith::MulD | Arith::DivD | Arith::Mod => Width::Dword,
    }
}

/// The product of two numbers, which 64 bits hold.
fn product(x: i32, y: i32) -> i64
    ensures { result ≡ x *ℤ y }
{
    i64::from(x) * i64::from(y)
}

/// The quotient of two numbers, truncated; that of the least number and -1 has 64 bits.
fn quotient(x: i32, y: i32) -> i64
    requires { y ≢ pos 0 }
    ensures { result ≡ int_div x y }
{
    i64::from(x) / i64::from(y)
}

/// The remainder of two numbers, with the sign of the dividend.
fn remainder(x: i32, y: i32) -> i64
    requires { y ≢ pos 0 }
    ensures { result ≡ int_rem x y }
{
    i64::from(x) % i64::from(y)
}

/// The number with the other sign.
fn opposite(x: i32) -> i64
    ensures { result ≡ neg_ℤ x }
{
    -i64::from(x)
}

/// Whether a comparison of the number in ACCU2 with that in ACCU1 is true.
fn holds(test: Test, x: i32, y: i32) -> bool
    ensures { result ≡ holds test x y }
{
    match test {
        Test::Eq => x == y,
        Test::Ne => x != y,
        Test::Gt => x > y,
        Test::Lt => x < y,
        Test::Ge => x >= y,
        Test::Le => x <= y,
        Test::Uo | Test::Ov | Test::Os | Test::Br => false,
    }
}

impl Registers {
    /// The registers with a result in a part of ACCU1, shown by the status word.
    fn result_in(self, width: Width, z: i64) -> Registers
        ensures { values result ≡ result_in width z (values self) }
    {
        Registers {
            accu1: with_number(width, self.accu1, z),
            status: self.status.signed(wrapped(width, z), is_over(width, z)),
            ..self
        }
    }

    /// The registers with a product in the whole of ACCU1, shown by the status word.
    fn product_in(self, width: Width, z: i64) -> Registers
        ensures { values result ≡ product_in width z (values self) }
    {
        Registers {
            accu1: pattern(Width::Dword, z),
            status: self.status.signed(z, is_over(width, z)),
            ..self
        }
    }

    /// The registers after a division by 0.
    fn divided_by_zero(self) -> Registers
        ensures { values result ≡ record (values self) { status = after_zero_divisor (values self).status } }
    {
        Registers {
            status: self.status.zero_divisor(),
            ..self
        }
    }

    /// `/I`: the quotient in the low word of ACCU1, the remainder in the high word.
    fn both_in_words(self, x: i32, y: i32) -> Registers
        ensures { values result ≡ by_divisor both_in_words x y (values self) }
    {
        if y == 0 {
            return self.divided_by_zero();
        }
        let quotient = quotient(x, y);
        let low = pattern(Width::Word, quotient);
        let high = pattern(Width::Word, remainder(x, y));
        Registers {
            accu1: high * 65536 + low,
            status: self.status.signed(quotient, is_over(Width::Word, quotient)),
            ..self
        }
    }

    /// `/D`: the quotient in ACCU1.
    fn quotient_in_dword(self, x: i32, y: i32) -> Registers
        ensures { values result ≡ by_divisor quotient_in_dword x y (values self) }
    {
        if y == 0 {
            return self.divided_by_zero();
        }
        let quotient = quotient(x, y);
        Registers {
            accu1: pattern(Width::Dword, quotient),
            status: self
                .status
                .signed(quotient, is_over(Width::Dword, quotient)),
            ..self
        }
    }

    /// `MOD`: the remainder in ACCU1.
    fn remainder_in_dword(self, x: i32, y: i32) -> Registers
        ensures { values result ≡ by_divisor remainder_in_dword x y (values self) }
    {
        if y == 0 {
            return self.divided_by_zero();
        }
        let remainder = remainder(x, y);
        Registers {
            accu1: pattern(Width::Dword, remainder),
            status: self.status.signed(remainder, false),
            ..self
        }
    }

    /// An arithmetic instruction on the numbers in ACCU2 and ACCU1.
    fn arithmetic_of_numbers(self, of: Arith, x: i32, y: i32) -> Registers
        ensures { values result ≡ arithmetic_of_numbers of x y (values self) }
    {
        match of {
            Arith::AddI => self.result_in(Width::Word, i64::from(x) + i64::from(y)),
            Arith::SubI => self.result_in(Width::Word, i64::from(x) - i64::from(y)),
            Arith::MulI => self.product_in(Width::Word, product(x, y)),
            Arith::DivI => self.both_in_words(x, y),
            Arith::AddD => self.result_in(Width::Dword, i64::from(x) + i64::from(y)),
            Arith::SubD => self.result_in(Width::Dword, i64::from(x) - i64::from(y)),
            Arith::MulD => self.product_in(Width::Dword, product(x, y)),
            Arith::DivD => self.quotient_in_dword(x, y),
            Arith::Mod => self.remainder_in_dword(x, y),
        }
    }

    /// An arithmetic instruction: the result in ACCU1, shown by the status word.
    pub fn after_arithmetic(self, of: Arith) -> Registers
        ensures { values result ≡ after_arithmetic of (values self) }
    {
        let width = width_of(of);
        self.arithmetic_of_numbers(
            of,
            signed_part(width, self.accu2),
            signed_part(width, self.accu1),
        )
    }

    /// `NEGI` and `NEGD`: the number in a part of ACCU1 with the other sign.
    pub fn after_negation(self, width: Width) -> Registers
        ensures { values result ≡ after_negation width (values self) }
    {
        self.result_in(width, opposite(signed_part(width, self.accu1)))
    }

    /// `==I` to `<=I` and `==D` to `<=D`: the status word shows how the number in ACCU2 compares with that in
    /// ACCU1.
    pub fn after_comparison(self, test: Test, width: Width) -> Registers
        ensures { values result ≡ after_comparison test width (values self) }
    {
        let x = signed_part(width, self.accu2);
        let y = signed_part(width, self.accu1);
        Registers {
            status: self.status.compared(x, y, holds(test, x, y)),
            ..self
        }
    }
}
