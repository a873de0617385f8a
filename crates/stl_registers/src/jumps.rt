//! What jumps look at in the registers, and what they leave there.
ghost use Rattle.std.specs.Prelude.{◌≡◌};
ghost use Rattle.status_word.specs.Flags.{bits};
ghost use Rattle.stl_registers.specs.Values.{values};
ghost use Rattle.stl_tree.specs.Jumps.{after_test, is_as, is_made};

use crate::registers::Registers;
use status_word::{Flag, Status};
use stl_tree::JumpTest;

/// Whether a bit is the one that is wanted.
fn is_as(wanted: bool, bit: bool) -> bool
    ensures { result ≡ is_as wanted bit }
{
    bit == wanted
}

/// The status word after a jump, whether it is made or not.
fn after_test(test: JumpTest, status: Status) -> Status
    ensures { bits result ≡ after_test test (bits status) }
{
    match test {
        JumpTest::Always | JumpTest::Overflow | JumpTest::Result(_) => status,
        JumpTest::Rlo(_) => status.after_jump(),
        JumpTest::RloSaved(_) => status.saved().after_jump(),
        JumpTest::Br(_) => status.opened(),
        JumpTest::StoredOverflow => status.put(Flag::Os, false),
    }
}

impl Registers {
    /// Whether a jump is made that looks here.
    pub fn is_made(self, test: JumpTest) -> bool
        ensures { result ≡ is_made test (values self).status }
    {
        match test {
            JumpTest::Always => true,
            JumpTest::Rlo(wanted) | JumpTest::RloSaved(wanted) => {
                is_as(wanted, self.status.get(Flag::Rlo))
            }
            JumpTest::Br(wanted) => is_as(wanted, self.status.get(Flag::Br)),
            JumpTest::Overflow => self.status.get(Flag::Ov),
            JumpTest::StoredOverflow => self.status.get(Flag::Os),
            JumpTest::Result(of) => self.status.test(of),
        }
    }

    /// The registers after a jump, whether it is made or not.
    pub fn after_test(self, test: JumpTest) -> Registers
        ensures { values result ≡ record (values self) { status = after_test test (values self).status } }
    {
        Registers {
            status: after_test(test, self.status),
            ..self
        }
    }
}
