//! A unit, segment by segment.
ghost use Rattle.std.specs.Prelude.{◌≡◌, ◌+◌, ◌<◌, ◌≤◌, [], IfOk, List, OnOk, drop, length};
ghost use Rattle.graph_rules.specs.Plain.{AreSettings};
ghost use Rattle.restructure.specs.Lengths.{IsShort};
ghost use Rattle.restructure.specs.Levels.{IsLow};
ghost use Rattle.restructure.specs.Structures.{AreUnitNodes, IsStructured};
ghost use Rattle.restructure.specs.TextShape.{HasSelectors, HasShape};
ghost use Rattle.restructure.specs.inner.Writing.{AreSegments, IsKnownUnit, IsNext, IsUnitText};
ghost use Rattle.shape_laws.specs.EachOnce.{HasEachOnce};
ghost use Rattle.st_tree.specs.declared.graph.StNode.{StNode};
ghost use Rattle.stl_tree.specs.Flows.{IsSegment};
ghost use Rattle.text_shapes.specs.NodeCounts.{KeepsOff};
ghost use Rattle.unit_regions.specs.MadeCharts.{ending_of};
ghost use Rattle.unit_regions.specs.UnitCharts.{blocks_between};

use dispatch_loops::{Turns, push_turns, settings};
use flow_graph::cuts;
use plan_texts::push_planned;
use s7_base::{List, NoMemory, rest_after};
use segment_plans::{Blocks, blocks_of, may_split};
use st_tree::{StGraph, StNode, Stmt};
use std::alloc::Global;
use std::collections::VecDeque;

/// The statements of a unit, and how many loops over the selector are among them.
#[derive(Drop)]
pub struct Structured {
    pub body: List<Stmt>,
    pub selectors: u32,
}

/// A unit that is written: what is known of its blocks, the steps of the end word alone, and the local that selects.
#[derive(Clone, Copy)]
struct Unit<'a> {
    alloc: Global,
    blocks: &'a Blocks,
    ending: &'a [Stmt],
    selector: u32,
}

/// The steps of the end word alone.
fn ending_of(alloc: Global, nodes: &[StNode]) -> Result<List<Stmt>, NoMemory>
    requires { AreUnitNodes nodes.now }
    ensures { IfOk result (λ ending. ending ≡ ending_of nodes.now) }
{
    match nodes.last() {
        Some(node) if node.only_end => settings(alloc, node.steps.as_slice()),
        _ => Ok(List::new(alloc)),
    }
}

/// Writes a segment, and tells whether it falls off its end.
fn push_segment(
    unit: Unit,
    made: &mut Structured,
    nodes: &mut VecDeque<StNode>,
    first: u32,
    past: u32,
) -> Result<bool, NoMemory>
    requires some { first < past }
    requires few { made.old.selectors ≤ first }
    requires settings { AreSettings unit.ending.now }
    ensures { (all : List StNode) → IsKnownUnit all unit.entry.blocks.now unit.entry.ending.now
        → IsSegment (blocks_between all first past) → nodes.old.items ≡ drop first all
        → IfOk result (λ falls. (nodes.new.items ≡ drop past all)
        × IsNext all unit.entry.blocks.now unit.entry.selector first past made.old made.new falls) }
{
    if may_split(unit.alloc, unit.blocks, first, past)? {
        return push_planned(
            unit.alloc,
            unit.blocks,
            unit.ending,
            &mut made.body,
            nodes,
            first,
            past,
        );
    }
    let turns = Turns {
        selector: unit.selector,
        first,
        past,
    };
    push_turns(unit.alloc, unit.blocks, &mut made.body, nodes, turns)?;
    made.selectors += 1;
    Ok(true)
}

/// Writes the segments of a unit, which end at these cuts and at its end, up to the first one that nothing of the unit
/// follows.
fn push_segments(
    unit: Unit,
    made: &mut Structured,
    nodes: &mut VecDeque<StNode>,
    cuts: &[u32],
) -> Result<(), NoMemory>
    requires unit { IsKnownUnit nodes.old.items unit.blocks.now unit.ending.now }
    requires cuts { AreSegments nodes.old.items 0 cuts.now }
    requires body { made.old.body ≡ [] }
    requires selectors { made.old.selectors ≡ 0 }
    ensures { OnOk result
        (IsUnitText nodes.old.items unit.entry.blocks.now unit.entry.selector cuts.now made.new) }
{
    let count = nodes.len() as u32;
    let mut first = 0;
    for past in cuts {
        let falls = push_segment(unit, made, nodes, first, *past)?;
        if !falls || !unit.blocks.is_reached(*past) {
            return Ok(());
        }
        first = *past;
    }
    push_segment(unit, made, nodes, first, count)?;
    Ok(())
}

/// The statements of a unit with these nodes, which is cut here.
fn structure_of(unit: Unit, nodes: List<StNode>, cuts: &[u32]) -> Result<Structured, NoMemory>
    requires unit { IsKnownUnit nodes unit.blocks.now unit.ending.now }
    requires cuts { AreSegments nodes 0 cuts.now }
    ensures { IfOk result (IsUnitText nodes unit.entry.blocks.now unit.entry.selector cuts.now) }
{
    let mut nodes = VecDeque::from(nodes.into_vec());
    let mut made = Structured {
        body: List::new(unit.alloc),
        selectors: 0,
    };
    push_segments(unit, &mut made, &mut nodes, cuts)?;
    Ok(made)
}

/// The statements of a unit with these nodes. The local at the position `selector` chooses the block of a turn in a
/// segment that is not well nested.
pub fn restructure(alloc: Global, graph: StGraph, selector: u32) -> Result<Structured, NoMemory>
    requires { AreUnitNodes graph.nodes }
    ensures right { IfOk result (λ made. IsStructured graph.nodes selector made) }
    ensures shape { IfOk result (λ made. KeepsOff selector graph.nodes → HasShape graph.nodes selector made) }
    ensures counted { IfOk result (λ made. KeepsOff selector graph.nodes → HasSelectors selector made) }
    ensures short { IfOk result (λ made. IsShort graph.nodes made) }
    ensures low { IfOk result (λ made. IsLow graph.nodes made) }
    ensures once { IfOk result (λ made. HasEachOnce graph.nodes made.body) }
{
    let blocks = blocks_of(alloc, graph.nodes.as_slice())?;
    let cuts = cuts(alloc, blocks.exits.as_slice(), blocks.reached.as_slice())?;
    let ending = ending_of(alloc, graph.nodes.as_slice())?;
    let unit = Unit {
        alloc,
        blocks: &blocks,
        ending: ending.as_slice(),
        selector,
    };
    structure_of(unit, graph.nodes, rest_after(cuts.as_slice(), 1))
}
