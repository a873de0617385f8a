//! A text with its conditions in their place, and with symbols.
ghost use Rattle.std.specs.Prelude.{◌≡◌, [], All, IfOk};
ghost use Rattle.condition_laws.specs.Elsif.{AllHaveElsif};
ghost use Rattle.condition_laws.specs.NoLarger.{HasNoLarger};
ghost use Rattle.st_polish.specs.Names.{KeepsNames};
ghost use Rattle.st_polish.specs.SameRuns.{RunsAsBefore};
ghost use Rattle.st_tree.specs.Proper.{Proper};
ghost use Rattle.stl_tree.specs.Accepted.{IsSymbol};
ghost use Rattle.st_globals.specs.NamedText.{named_text};

use s7_base::NoMemory;
use st_conditions::with_conditions;
use st_globals::name_places;
use st_tree::StProgram;
use std::alloc::Global;
use stl_tree::Symbol;

/// The text with symbols in the place of the places that its statements name. Without a symbol it is as it was.
fn with_symbols(alloc: Global, tree: StProgram, symbols: &[Symbol]) -> Result<StProgram, NoMemory>
    requires proper { Proper tree }
    requires globals { tree.globals ≡ [] }
    requires symbols { All IsSymbol symbols.now }
    ensures text { IfOk result (λ named. named ≡ named_text symbols.now tree) }
    ensures proper { IfOk result Proper }
{
    if symbols.is_empty() {
        return Ok(tree);
    }
    name_places(alloc, tree, symbols)
}

/// The text with the tests of its loops and its choices in their place, and with symbols in place of the places that
/// its statements name. It runs as before, its units, their formals and their locals are called as before, and it is
/// counted as no more and nests no deeper.
pub fn polish(alloc: Global, tree: StProgram, symbols: &[Symbol]) -> Result<StProgram, NoMemory>
    requires proper { Proper tree }
    requires globals { tree.globals ≡ [] }
    requires symbols { All IsSymbol symbols.now }
    ensures proper { IfOk result Proper }
    ensures same { IfOk result (λ new. RunsAsBefore tree new) }
    ensures names { IfOk result (λ new. KeepsNames symbols.now tree new) }
    ensures shape { IfOk result (λ new. HasNoLarger tree new) }
    ensures elsif { IfOk result AllHaveElsif }
{
    let with_tests = with_conditions(alloc, tree)?;
    with_symbols(alloc, with_tests, symbols)
}
