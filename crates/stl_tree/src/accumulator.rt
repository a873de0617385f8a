//! The instructions that work in the accumulators, kind by kind.
ghost use Rattle.std.specs.Prelude.{◌≡◌};
ghost use Rattle.stl_tree.specs.Shifts.{most_steps};
ghost use Rattle.stl_tree.specs.WordLogic.{width_of};

use s7_base::Width;

/// Arithmetic: on the low words of ACCU2 and ACCU1, or with `D` on the whole of them.
#[derive(Clone, Copy, Debug, PartialEq, Eq)]
pub enum Arith {
    /// `+I`: the sum of the low words.
    AddI,

    /// `-I`: the low word of ACCU2 minus that of ACCU1.
    SubI,

    /// `*I`: the product of the low words, of 32 bits.
    MulI,

    /// `/I`: the low word of ACCU2 divided by that of ACCU1, with the remainder.
    DivI,

    /// `+D`: the sum of ACCU2 and ACCU1.
    AddD,

    /// `-D`: ACCU2 minus ACCU1.
    SubD,

    /// `*D`: the product of ACCU2 and ACCU1.
    MulD,

    /// `/D`: ACCU2 divided by ACCU1.
    DivD,

    /// `MOD`: the remainder of ACCU2 divided by ACCU1.
    Mod,
}

/// Shifts and rotations of ACCU1, or of its low word: to the left, to the right, to the right with the sign,
/// and around.
#[derive(Clone, Copy, Debug, PartialEq, Eq)]
pub enum ShiftRow {
    Slw,
    Srw,
    Ssi,
    Sld,
    Srd,
    Ssd,
    Rld,
    Rrd,
}

impl ShiftRow {
    /// The greatest count that may be written as a constant: 15 for a word, else 32.
    pub fn most_steps(self) -> u8
        ensures { result ≡ most_steps self }
    {
        match self {
            ShiftRow::Slw | ShiftRow::Srw | ShiftRow::Ssi => 15,
            ShiftRow::Sld | ShiftRow::Srd | ShiftRow::Ssd | ShiftRow::Rld | ShiftRow::Rrd => 32,
        }
    }
}

/// Word logic: AND, OR and exclusive OR on the low word of ACCU1, or with `d` on the whole of it.
#[derive(Clone, Copy, Debug, PartialEq, Eq)]
pub enum LogicRow {
    Aw,
    Ow,
    Xow,
    Ad,
    Od,
    Xod,
}

impl LogicRow {
    /// The width that an instruction works on.
    pub fn width(self) -> Width
        ensures { result ≡ width_of self }
    {
        match self {
            LogicRow::Aw | LogicRow::Ow | LogicRow::Xow => Width::Word,
            LogicRow::Ad | LogicRow::Od | LogicRow::Xod => Width::Dword,
        }
    }
}

/// Instructions on ACCU1 alone.
#[derive(Clone, Copy, Debug, PartialEq, Eq)]
pub enum UnaryRow {
    /// `BTI`: three digits to a number of 16 bits.
    Bti,

    /// `BTD`: seven digits to a number of 32 bits.
    Btd,

    /// `ITB`: a number of 16 bits to three digits.
    Itb,

    /// `DTB`: a number of 32 bits to seven digits.
    Dtb,

    /// `ITD`: a number of 16 bits to one of 32.
    Itd,

    /// `INVI`: each bit of the low word inverted.
    Invi,

    /// `INVD`: each bit inverted.
    Invd,

    /// `CAW`: the bytes of the low word in reverse order.
    Caw,

    /// `CAD`: the four bytes in reverse order.
    Cad,

    /// `NEGI`: the number in the low word negated.
    Negi,

    /// `NEGD`: the number negated.
    Negd,
}
