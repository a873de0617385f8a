//! The registers that both languages know, and sets of them.
ghost use Rattle.std.specs.Prelude.{◌^◌, ◌<◌};

/// A register of the controller; the last nine are the bits of the status word.
#[derive(Clone, Copy, Debug, PartialEq, Eq)]
pub enum Reg {
    /// Accumulator 1, of 32 bits.
    Accu1,

    /// Accumulator 2, of 32 bits.
    Accu2,

    /// Address register 1, which holds a pointer.
    Ar1,

    /// Address register 2, which holds a pointer.
    Ar2,

    /// The number of the open data block, 0 where none is open.
    DbNo,

    /// The number of the open instance data block, 0 where none is open.
    DiNo,

    /// /FC: set while a chain of checks goes on; where it is not, the next check is a first one.
    Nfc,

    /// The result of logic operation.
    Rlo,

    /// The status: the bit that was last checked or written.
    Sta,

    /// OR: the result of an AND before an `O` without operand.
    Orb,

    /// Stored overflow, which stays until it is reset.
    Os,

    /// Overflow of the last calculation.
    Ov,

    /// Condition code 0, which with condition code 1 shows the sign of a result.
    Cc0,

    /// Condition code 1, which also holds the last bit that was shifted out.
    Cc1,

    /// The binary result, which keeps a result of logic operation.
    Br,
}

impl Reg {
    ghost use Rattle.std.specs.Prelude.{◌≡◌};
    ghost use Rattle.s7_base.specs.RegSet.{place};

    /// The place of the register's bit in a set.
    fn place(self) -> u32
        ensures { result ≡ place self }
    {
        self as u32
    }
}

/// A set of registers: a bit for each, in their order from the lowest, and no other bit. So sets with the
/// same registers are equal.
#[derive(Clone, Copy, Debug, PartialEq, Eq)]
pub struct RegSet {
    bits: u16,
    ghost within: { bits < 2 ^ 15 },
}

#[tactic(auto, using(crate::proofs::Sets::set_laws), unfolding(crate::specs::RegSet::has_bit))]
impl RegSet {
    ghost use Rattle.std.specs.Prelude.{◌≡◌, ◌≢◌, ◌||◌, true, false};
    ghost use Rattle.s7_base.specs.declared.register.Reg.{Reg};
    ghost use Rattle.s7_base.specs.RegSet.{has_reg};

    /// The empty set.
    pub fn none() -> RegSet
        ensures { (q : Reg) → has_reg result q ≡ false }
    {
        RegSet { bits: 0 }
    }

    /// The set with one more register.
    pub fn with(self, r: Reg) -> RegSet
        ensures same { has_reg result r ≡ true }
        ensures other { (q : Reg) → q ≢ r → has_reg result q ≡ has_reg self q }
    {
        RegSet {
            bits: self.bits | 1 << r.place(),
        }
    }

    /// The set with one register less.
    pub fn without(self, r: Reg) -> RegSet
        ensures same { has_reg result r ≡ false }
        ensures other { (q : Reg) → q ≢ r → has_reg result q ≡ has_reg self q }
    {
        RegSet {
            bits: self.bits & !(1 << r.place()),
        }
    }

    /// Whether the register is in the set.
    pub fn has(self, r: Reg) -> bool
        ensures { result ≡ has_reg self r }
    {
        self.bits >> r.place() & 1 == 1
    }

    /// The registers that are in one of the two sets, or in both.
    pub fn union(self, other: RegSet) -> RegSet
        ensures { (q : Reg) → has_reg result q ≡ (has_reg self q || has_reg other q) }
    {
        RegSet {
            bits: self.bits | other.bits,
        }
    }
}
