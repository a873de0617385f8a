//! A law of sets of registers.
ghost use Rattle.s7_base.specs.RegSet.{SameRegistersAreEqual};

/// Sets with the same registers are equal.
pub fn same_registers_are_equal()
    ensures { SameRegistersAreEqual }
{}
