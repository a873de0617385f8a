//! The register variables, each as a number.
ghost use Rattle.std.specs.Prelude.{◌≡◌, ◌<◌, get_or};
ghost use Rattle.s7_base.specs.RegSet.{place};
ghost use Rattle.st_runner.specs.inner.View.{numbers_of};
ghost use Rattle.st_tree.specs.State.{with_register};
ghost use Rattle.st_tree.specs.StRun.{all_zero};

use s7_base::Reg;

/// How many registers there are.
const REGISTERS: usize = 15;

/// The numbers of the registers, in the order of the registers.
#[derive(Clone, Copy)]
pub struct Registers {
    numbers: [i64; REGISTERS],
}

/// The position of a register's number.
fn place_of(r: Reg) -> usize
    ensures value { result ≡ place r }
    ensures few { result < 15 }
{
    r as usize
}

impl Registers {
    /// The registers, all zero.
    pub fn zero() -> Registers
        ensures { numbers_of result ≡ all_zero }
    {
        Registers {
            numbers: [0; REGISTERS],
        }
    }

    /// The number of a register.
    pub fn get(&self, r: Reg) -> i64
        ensures { result ≡ numbers_of self.now r }
    {
        self.numbers[place_of(r)]
    }

    /// Gives a register a number.
    pub fn give_number(&mut self, r: Reg, n: i64)
        ensures { numbers_of self.new ≡ with_register r n (numbers_of self.old) }
    {
        self.numbers[place_of(r)] = n;
    }
}
