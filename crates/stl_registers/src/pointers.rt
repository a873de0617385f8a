//! The address registers, and the instructions that load, store and move them.
ghost use Rattle.std.specs.Prelude.{◌≡◌};
ghost use Rattle.memory_areas.specs.Pointers.{with_offset};
ghost use Rattle.stl_registers.specs.Values.{values};
ghost use Rattle.stl_tree.specs.AddressRegisters.{accu1_pointed, other_loaded, other_stored, pointer_in, pointer_loaded, pointer_moved, pointers_exchanged, with_pointer};

use crate::accumulators::signed_part;
use crate::registers::Registers;
use address_registers::Pointer;
use s7_base::Width;
use stl_tree::Ar;

impl Registers {
    /// The value of an address register.
    pub fn pointer(self, register: Ar) -> Pointer
        ensures { result.0 ≡ pointer_in register (values self) }
    {
        match register {
            Ar::One => Pointer(self.ar1),
            Ar::Two => Pointer(self.ar2),
        }
    }

    /// The pointer of an access by an address register.
    pub fn pointer_with_offset(self, register: Ar, offset: u32) -> Pointer
        ensures { result.0 ≡ with_offset (pointer_in register (values self)) offset }
    {
        self.pointer(register).add_offset(offset)
    }

    /// The effect of `LAR1` and `LAR2` with a pointer.
    pub fn with_pointer(self, register: Ar, p: Pointer) -> Registers
        ensures { values result ≡ with_pointer register p.0 (values self) }
    {
        match register {
            Ar::One => Registers { ar1: p.0, ..self },
            Ar::Two => Registers { ar2: p.0, ..self },
        }
    }

    /// `LAR1` and `LAR2` alone: the pointer in ACCU1.
    pub fn accu1_pointed(self, register: Ar) -> Registers
        ensures { values result ≡ accu1_pointed register (values self) }
    {
        self.with_pointer(register, Pointer(self.accu1))
    }

    /// `LAR1 AR2`: an address register takes the value of the other one.
    pub fn other_loaded(self, register: Ar) -> Registers
        ensures { values result ≡ other_loaded register (values self) }
    {
        self.with_pointer(register, self.pointer(register.other()))
    }

    /// `TAR1` and `TAR2` alone: into ACCU1, whose old value goes to ACCU2.
    pub fn pointer_loaded(self, register: Ar) -> Registers
        ensures { values result ≡ pointer_loaded register (values self) }
    {
        self.after_load(self.pointer(register).0)
    }

    /// `TAR1 AR2`: the other address register takes the value of this one.
    pub fn other_stored(self, register: Ar) -> Registers
        ensures { values result ≡ other_stored register (values self) }
    {
        self.with_pointer(register.other(), self.pointer(register))
    }

    /// `CAR`: AR1 and AR2 exchange their values.
    pub fn pointers_exchanged(self) -> Registers
        ensures { values result ≡ pointers_exchanged (values self) }
    {
        Registers {
            ar1: self.ar2,
            ar2: self.ar1,
            ..self
        }
    }

    /// `+AR1` and `+AR2`, of an offset, or of the low word of ACCU1 with its sign.
    pub fn pointer_moved(self, register: Ar, amount: Option<u32>) -> Registers
        ensures { values result ≡ pointer_moved register amount (values self) }
    {
        let added = match amount {
            Some(offset) => offset.cast_signed(),
            None => signed_part(Width::Word, self.accu1),
        };
        self.with_pointer(register, self.pointer(register).add_signed(added))
    }
}
