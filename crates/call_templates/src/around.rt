//! What stands around each call.
ghost use Rattle.std.specs.Prelude.{◌≡◌, ◌+◌, ◌^◌, ◌<◌, ◌++◌, OnOk};
ghost use Rattle.call_templates.specs.Calls.{end_word_of, put_back_of, saved_of};

use s7_base::{List, NoMemory, Reg};
use st_tree::Stmt;
use template_parts::{literal, local, push_clear_or, read, set_local, set_register};

/// Appends the statements of the end word, which stand before each call too: OR, /FC and OS are cleared.
pub fn push_end_word(steps: &mut List<Stmt>) -> Result<(), NoMemory>
    ensures { OnOk result (steps.new ≡ steps.old ++ end_word_of) }
{
    push_clear_or(steps, false)?;
    steps.push(set_register(Reg::Os, literal(false)))
}

/// Appends the statements that save DBNO and DINO in two locals.
pub fn push_save(steps: &mut List<Stmt>, first: u32) -> Result<(), NoMemory>
    requires { first + 1 < 2 ^ 32 }
    ensures { OnOk result (steps.new ≡ steps.old ++ saved_of first) }
{
    steps.push(set_local(first, read(Reg::DbNo)))?;
    steps.push(set_local(first + 1, read(Reg::DiNo)))
}

/// Appends the statements that put DBNO and DINO back.
pub fn push_put_back(steps: &mut List<Stmt>, first: u32) -> Result<(), NoMemory>
    requires { first + 1 < 2 ^ 32 }
    ensures { OnOk result (steps.new ≡ steps.old ++ put_back_of first) }
{
    steps.push(set_register(Reg::DbNo, local(first)))?;
    steps.push(set_register(Reg::DiNo, local(first + 1)))
}
