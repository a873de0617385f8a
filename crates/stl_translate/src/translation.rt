//! The text of a program: that of its graph program, as a reader wants it.
ghost use Rattle.std.specs.Prelude.{IfOk};
ghost use Rattle.st_tree.specs.Proper.{Proper};
ghost use Rattle.stl_tree.specs.Accepted.{IsAccepted};
ghost use Rattle.stl_translate.specs.Named.{Named};
ghost use Rattle.stl_translate.specs.Same.{Same};
ghost use Rattle.stl_translate.specs.Shape.{Shape};

use graph_texts::text_of_graph;
use instruction_lowering::lower;
use s7_base::NoMemory;
use st_polish::polish;
use st_tree::StProgram;
use std::alloc::Global;
use stl_tree::Program;

/// The tree of a text that means the same as the program, and that a text can have. Its units, their formals and their
/// locals have the names that the program gives, and where it can it names places by the program's symbols.
pub fn translate(alloc: Global, program: &Program) -> Result<StProgram, NoMemory>
    requires { IsAccepted program.now }
    ensures proper { IfOk result Proper }
    ensures same { IfOk result (λ tree. Same program.now tree) }
    ensures named { IfOk result (λ tree. Named program.now tree) }
    ensures shape { IfOk result (λ tree. Shape program.now tree) }
{
    let graph = lower(alloc, program)?;
    let text = text_of_graph(alloc, graph)?;
    polish(alloc, text, program.symbols.as_slice())
}
