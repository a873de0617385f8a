//! Templates of brackets.
ghost use Rattle.std.specs.Prelude.{◌≡◌, ◌<◌, ◌+◌, ◌^◌, ◌++◌, OnOk};
ghost use Rattle.bit_templates.specs.Brackets.{behind_close, close_of, open_of, types_of_bracket};

use crate::chain::{OpenBracket, next_rlo};
use s7_base::{Check, List, NoMemory, Reg};
use st_tree::{Expr, StType, Stmt, Var};
use std::alloc::Global;
use template_parts::{literal, push_clear_or, read, set_local, set_register};

/// The types of the locals of a bracket.
pub fn types_of_bracket() -> &'static [StType]
    ensures { result.now ≡ types_of_bracket }
{
    &[StType::Bool, StType::Bool, StType::Bool]
}

/// A bracket is opened: three locals keep RLO, OR and NFC.
pub fn push_opened(steps: &mut List<Stmt>, first: u32) -> Result<(), NoMemory>
    requires { first + 8 < 2 ^ 32 }
    ensures { OnOk result (steps.new ≡ steps.old ++ open_of first) }
{
    steps.push(set_local(first, read(Reg::Rlo)))?;
    steps.push(set_local(first + 1, read(Reg::Orb)))?;
    steps.push(set_local(first + 2, read(Reg::Nfc)))?;
    push_clear_or(steps, false)
}

/// A bracket is closed: the RLO inside is checked in the chain that the bracket kept.
pub fn push_closed(
    alloc: Global,
    steps: &mut List<Stmt>,
    bracket: OpenBracket,
) -> Result<(), NoMemory>
    ensures { OnOk result (steps.new ≡ steps.old ++ close_of bracket) }
{
    let value = next_rlo(alloc, bracket.kept, bracket.check, read(Reg::Rlo))?;
    steps.push(set_register(Reg::Rlo, value))?;
    push_behind_close(steps, bracket.check, bracket.kept.orb)
}

/// The end of a closed bracket: an AND puts OR back, the others clear it.
fn push_behind_close(steps: &mut List<Stmt>, check: Check, orb: Var) -> Result<(), NoMemory>
    ensures { OnOk result (steps.new ≡ steps.old ++ behind_close check orb) }
{
    match check {
        Check::A | Check::An => {
            steps.push(set_register(Reg::Orb, Expr::Read(orb)))?;
            steps.push(set_register(Reg::Nfc, literal(true)))
        }
        Check::O | Check::On | Check::X | Check::Xn => push_clear_or(steps, true),
    }
}
