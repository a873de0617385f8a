//! A text whose statements name places by symbols.
ghost use Rattle.std.specs.Prelude.{◌≡◌, [], All, IfOk};
ghost use Rattle.st_tree.specs.Proper.{Proper};
ghost use Rattle.stl_tree.specs.Accepted.{IsSymbol};
ghost use Rattle.st_globals.specs.NamedText.{HaveSameRuns, NamesNoGlobalDirectly, named_text};

use crate::globals::globals_of;
use crate::renaming::named_units;
use s7_base::NoMemory;
use st_tree::StProgram;
use std::alloc::Global;
use stl_tree::Symbol;

/// The text with symbols in the place of the places that its statements name. A symbol becomes a global where a
/// statement names its place in its width, no symbol before it does so for that place, and the text may give its name to
/// a global. The text means the same, and nothing of it changes but its globals and the variables in its statements.
pub fn name_places(
    alloc: Global,
    tree: StProgram,
    symbols: &[Symbol],
) -> Result<StProgram, NoMemory>
    requires proper { Proper tree }
    requires globals { tree.globals ≡ [] }
    requires symbols { All IsSymbol symbols.now }
    ensures text { IfOk result (λ named. named ≡ named_text symbols.now tree) }
    ensures proper { IfOk result Proper }
    ensures same { IfOk result (λ named. HaveSameRuns tree named) }
    ensures direct { IfOk result NamesNoGlobalDirectly }
{
    let globals = globals_of(alloc, tree.pous.as_slice(), symbols)?;
    let pous = named_units(alloc, &globals.numbers, tree.pous)?;
    Ok(StProgram {
        dbs: tree.dbs,
        globals: globals.list,
        pous,
    })
}
