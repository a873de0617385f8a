//! What names mean where they are used.
ghost use Rattle.std.specs.Prelude.{◌≡◌};
ghost use Rattle.st_names.specs.Scopes.{as_register, meaning_in, or_else, register_named};

use crate::table::Table;
use s7_base::{List, Reg};
use st_tree::{StType, register_word};

/// What a name means. Positions are those of the tree.
#[derive(Clone, Copy, Debug, PartialEq, Eq)]
pub enum Meaning {
    Register(Reg),
    Formal(u32, StType),
    Local(u32, StType),
    Global(u32, StType),

    /// A data block.
    Block,
    Program,
    Function(u32),
}

/// The formals of a unit: their keys in their order, and the type of each.
#[derive(Drop)]
pub struct Formals {
    pub keys: List<List<u8>>,
    pub types: Table<StType>,
}

/// What is declared: outside the units, as formals of each unit, and in the unit whose names are asked for.
#[derive(Drop)]
pub struct NameScope {
    pub outer: Table<Meaning>,
    pub formals: List<Formals>,
    pub inner: Table<Meaning>,
}

/// The registers that have a name.
pub const REGISTERS: [Reg; 15] = [
    Reg::Accu1,
    Reg::Accu2,
    Reg::Ar1,
    Reg::Ar2,
    Reg::DbNo,
    Reg::DiNo,
    Reg::Nfc,
    Reg::Rlo,
    Reg::Sta,
    Reg::Orb,
    Reg::Os,
    Reg::Ov,
    Reg::Cc0,
    Reg::Cc1,
    Reg::Br,
];

#[tactic(auto, unfolding(crate::specs::Scopes::register_named))]
fn register_named(key: &[u8]) -> Option<Reg>
    ensures { result ≡ register_named key.now }
{
    REGISTERS
        .iter()
        .copied()
        .find(|register| register_word(*register).as_bytes() == key)
}

impl NameScope {
    /// What a key means in the unit.
    pub fn meaning(&self, key: &[u8]) -> Option<Meaning>
        ensures { result ≡ meaning_in self.now key.now }
    {
        if let Some(register) = register_named(key) {
            return Some(Meaning::Register(register));
        }
        match self.inner.look_up(key) {
            Some(meaning) => Some(meaning),
            None => self.outer.look_up(key),
        }
    }
}
