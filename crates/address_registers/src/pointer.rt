//! Pointers, their parts and what is added to them.
ghost use Rattle.std.specs.Prelude.{◌≡◌, ◌%◌, ◌^◌, pos, unsigned_abs};
ghost use Rattle.std.specs.Int.{int_rem_euclid};
ghost use Rattle.memory_areas.specs.Pointers.{bit_of_pointer, byte_of_pointer, code_of_pointer, pointer_plus, with_offset};

/// One more than the greatest byte and bit number of a pointer.
const PLACES: u32 = 1 << 19;

/// One more than the greatest number below the area code.
const NUMBERS: u32 = 1 << 24;

/// A pointer: an area code, a byte number and a bit number, and five bits between that say nothing.
#[derive(Clone, Copy, Debug, PartialEq, Eq)]
pub struct Pointer(pub u32);

impl Pointer {
    /// The area code of the pointer, from 0 to 255.
    pub fn area(self) -> u8
        ensures { result ≡ code_of_pointer self.0 }
    {
        (self.0 >> 24) as u8
    }

    /// The byte number of the pointer, from 0 to 65,535.
    pub fn byte(self) -> u32
        ensures { result ≡ byte_of_pointer self.0 }
    {
        self.0 / 8 % 65536
    }

    /// The bit number of the pointer, from 0 to 7.
    pub fn bit(self) -> u8
        ensures { result ≡ bit_of_pointer self.0 }
    {
        (self.0 % 8) as u8
    }

    /// The pointer of an access with an offset, as in `[AR1, P#0.6]`.
    pub fn add_offset(self, offset: u32) -> Pointer
        ensures { result.0 ≡ with_offset self.0 offset }
    {
        let place = (self.0 % PLACES + offset % PLACES) % PLACES;
        Pointer(self.0 / PLACES * PLACES + place)
    }

    /// What an addition to an address register leaves in it, as `+AR1` does.
    pub fn add_signed(self, amount: i32) -> Pointer
        ensures { result.0 ≡ pointer_plus self.0 amount }
    {
        let number = (self.0 % NUMBERS + amount.cast_unsigned() % NUMBERS) % NUMBERS;
        Pointer(self.0 / NUMBERS * NUMBERS + number)
    }
}
