//! Word logic.
ghost use Rattle.std.specs.Prelude.{◌≡◌, ◌<◌, ◌^◌};
ghost use Rattle.memory_areas.specs.Access.{bits_wide};
ghost use Rattle.stl_registers.specs.Values.{values};
ghost use Rattle.stl_tree.specs.WordLogic.{after_word_logic, combination_of, logic_result, other_of, width_of};

use crate::accumulators::{part, with_part};
use crate::registers::Registers;
use s7_base::Width;
use stl_tree::LogicRow;

/// The result of a word logic instruction on two patterns, bit by bit.
fn combination_of(row: LogicRow, p: u32, q: u32) -> u32
    requires { p < 2 ^ bits_wide (width_of row) × q < 2 ^ bits_wide (width_of row) }
    ensures value { result ≡ combination_of row p q }
    ensures few { result < 2 ^ bits_wide (width_of row) }
{
    match row {
        LogicRow::Aw | LogicRow::Ad => p & q,
        LogicRow::Ow | LogicRow::Od => p | q,
        LogicRow::Xow | LogicRow::Xod => p ^ q,
    }
}

impl Registers {
    /// A part of ACCU1 takes a pattern.
    fn logic_result(self, width: Width, p: u32) -> Registers
        requires { p < 2 ^ bits_wide width }
        ensures { values result ≡ logic_result width p (values self) }
    {
        Registers {
            accu1: with_part(width, self.accu1, p),
            status: self.status.logic(p != 0),
            ..self
        }
    }

    /// What ACCU1 is combined with: the constant, or ACCU2.
    fn other_of(self, constant: Option<u32>) -> u32
        ensures { result ≡ other_of constant (values self) }
    {
        match constant {
            Some(constant) => constant,
            None => self.accu2,
        }
    }

    /// A word logic instruction, with a constant or with ACCU2.
    pub fn after_word_logic(self, row: LogicRow, constant: Option<u32>) -> Registers
        ensures { values result ≡ after_word_logic row constant (values self) }
    {
        let width = row.width();
        let p = part(width, self.accu1);
        let q = part(width, self.other_of(constant));
        self.logic_result(width, combination_of(row, p, q))
    }
}
