//! The units of a tree.
ghost use Rattle.std.specs.Prelude.{◌≡◌, IfOk};
ghost use Rattle.condition_laws.specs.Elsif.{AllHaveElsif};
ghost use Rattle.condition_laws.specs.Kept.{KeepsHeads};
ghost use Rattle.condition_laws.specs.NoLarger.{HasNoLarger};
ghost use Rattle.condition_laws.specs.SameRuns.{RunsAlike};
ghost use Rattle.condition_laws.specs.inner.Rewriting.{rewrite_program, rewrite_unit};
ghost use Rattle.st_tree.specs.Proper.{Proper};

use crate::statement::statements;
use s7_base::{List, NoMemory};
use st_tree::{Pou, StProgram};
use std::alloc::Global;

/// How many levels from the outermost statements on the tests of loops change. Such a test opens at most 62 levels in
/// itself, so that no text becomes too deep.
const ROOM: u32 = 131;

fn rewrite_unit(alloc: Global, unit: Pou) -> Result<Pou, NoMemory>
    ensures { IfOk result (λ new. new ≡ rewrite_unit unit) }
{
    let mut new = unit;
    new.body = statements(alloc, new.body, ROOM)?;
    Ok(new)
}

fn rewrite_program(alloc: Global, tree: StProgram) -> Result<StProgram, NoMemory>
    ensures { IfOk result (λ new. new ≡ rewrite_program tree) }
{
    let mut pous = List::new(alloc);
    for unit in tree.pous.into_vec() {
        pous.push(rewrite_unit(alloc, unit)?)?;
    }
    Ok(StProgram {
        dbs: tree.dbs,
        globals: tree.globals,
        pous,
    })
}

/// A tree with the conditions of its loops and choices in their place: `WHILE TRUE` that first leaves by EXIT has its
/// test at its head, where that is at most 32 high and at most 130 levels deep, and an ELSE that is one IF becomes
/// ELSIF. The text runs as before, can be written as before, and is counted as no more.
pub fn with_conditions(alloc: Global, tree: StProgram) -> Result<StProgram, NoMemory>
    requires { Proper tree }
    ensures proper { IfOk result Proper }
    ensures same { IfOk result (λ new. RunsAlike tree new) }
    ensures kept { IfOk result (λ new. KeepsHeads tree new) }
    ensures shape { IfOk result (λ new. HasNoLarger tree new) }
    ensures elsif { IfOk result AllHaveElsif }
{
    rewrite_program(alloc, tree)
}
