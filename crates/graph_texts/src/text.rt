//! The text of a graph program, a unit at a time.
ghost use Rattle.std.specs.Prelude.{◌≡◌, [], All, IfOk};
ghost use Rattle.graph_rules.specs.Plain.{IsPlainUnit, Plain};
ghost use Rattle.st_tree.specs.Proper.{Proper};
ghost use Rattle.graph_texts.specs.Heads.{KeepHeads};
ghost use Rattle.graph_texts.specs.Shapes.{HasShapeOf, HaveShapes};
ghost use Rattle.graph_texts.specs.inner.OwnLocals.{LeavesNext};
ghost use Rattle.region_laws.specs.NextLocal.{locals_of_text, next_local};
ghost use Rattle.region_laws.specs.SameRuns.{SameAsGraph};
ghost use Rattle.region_types.specs.ProperLaw.{HasProperTexts, IsProperText};

use restructure::restructure;
use s7_base::{List, NoMemory};
use st_tree::{GraphPou, GraphProgram, Local, Pou, StProgram, StType};
use std::alloc::Global;

/// The tree of a text that means the same as a plain graph program, and that a text can have. Its units are called as
/// those of the graph program, and it has no globals.
pub fn text_of_graph(alloc: Global, graph: GraphProgram) -> Result<StProgram, NoMemory>
    requires { Plain graph }
    ensures proper { IfOk result Proper }
    ensures same { IfOk result (λ tree. SameAsGraph graph tree) }
    ensures heads { IfOk result (λ tree. KeepHeads graph.pous tree.pous) }
    ensures globals { IfOk result (λ tree. tree.globals ≡ []) }
    ensures shape { IfOk result (λ tree. HaveShapes graph.pous tree.pous) }
{
    tree_of(alloc, graph)
}

fn tree_of(alloc: Global, graph: GraphProgram) -> Result<StProgram, NoMemory>
    requires plain { All IsPlainUnit graph.pous }
    requires next { All LeavesNext graph.pous }
    ensures texts { IfOk result (λ tree. HasProperTexts graph tree) }
    ensures shape { IfOk result (λ tree. HaveShapes graph.pous tree.pous) }
{
    let mut pous = List::new(alloc);
    for unit in graph.pous.into_vec() {
        pous.push(unit_of_text(alloc, unit)?)?;
    }
    Ok(StProgram {
        dbs: graph.dbs,
        globals: graph.globals,
        pous,
    })
}

fn unit_of_text(alloc: Global, unit: GraphPou) -> Result<Pou, NoMemory>
    requires plain { IsPlainUnit unit }
    requires next { LeavesNext unit }
    ensures text { IfOk result (λ text. IsProperText unit text) }
    ensures shape { IfOk result (λ text. HasShapeOf unit text) }
{
    let mut head = unit.head;
    let next = u32::try_from(head.locals.len()).or(Err(NoMemory))?;
    let made = restructure(alloc, unit.graph, next)?;
    head.locals = locals_of_text(alloc, made.selectors == 0, head.locals)?;
    head.body = made.body;
    Ok(head)
}

/// The locals of a unit. Where it needs `NEXT`, that is the last one.
fn locals_of_text(
    alloc: Global,
    without_next: bool,
    locals: List<Local>,
) -> Result<List<Local>, NoMemory>
    ensures { IfOk result (λ all. all ≡ locals_of_text without_next locals) }
{
    let mut locals = locals;
    if !without_next {
        locals.push(next_local(alloc)?)?;
    }
    Ok(locals)
}

fn next_local(alloc: Global) -> Result<Local, NoMemory>
    ensures { IfOk result (λ local. local ≡ next_local) }
{
    let name = Vec::from_slice(alloc, b"NEXT")?;
    Ok(Local {
        name: List::from_vec(name),
        ty: StType::Dint,
    })
}
