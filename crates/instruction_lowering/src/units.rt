//! The units of a program's blocks.
//!
//! A unit has a node for each block of its body, by the graph of the body. The locals of a unit are numbered through its
//! nodes, in one pass.
ghost use Rattle.std.specs.Prelude.{◌≡◌, ◌+◌, ◌==◌, ◌++◌, [], All, IfOk, OnOk};
ghost use Rattle.graph_rules.specs.Plain.{Plain};
ghost use Rattle.stl_tree.specs.Accepted.{IsAccepted, IsAcceptedBlock};
ghost use Rattle.instruction_lowering.specs.Lowered.{Lowered};
ghost use Rattle.instruction_lowering.specs.inner.Lowering.{AreFew, AreMadeOf, IsFew, IsMadeOf, exit_behind, head_for, node_with, nodes_of, steps_of, used_behind};
ghost use Rattle.instruction_lowering.specs.UnitNames.{in_order};
ghost use Rattle.instruction_lowering.specs.inner.UnitOrder.{AreBlocksAt, unit_positions};

use crate::data_blocks::copy_blocks;
use crate::locals::locals_of;
use crate::statements::{LoweringContext, push_statements};
use crate::unit_names::{unit_formals, unit_name};
use crate::unit_order::{in_order, unit_positions};
use flow_graph::{Exit, Node, graph_of};
use s7_base::{List, NoMemory, front_of, rest_after};
use st_tree::{GraphPou, GraphProgram, Pou, StExit, StGraph, StNode, Stmt};
use std::alloc::Global;
use std::mem::replace;
use stl_tree::{Block, BlockName, Instr, Program};
use template_parts::local;

/// The graph program of a program: a unit for each block, functions first, then function blocks, then organization blocks,
/// each by its number. It means what the program means.
pub fn lower(alloc: Global, program: &Program) -> Result<GraphProgram, NoMemory>
    requires { IsAccepted program.now }
    ensures plain { IfOk result Plain }
    ensures same { IfOk result (λ graph. Lowered program.now graph) }
{
    let blocks = program.blocks.as_slice();
    let order = in_order(alloc, blocks)?;
    let positions = unit_positions(alloc, blocks, &order)?;
    let pous = units(alloc, blocks, &order, &positions)?;
    let dbs = copy_blocks(alloc, program.dbs.as_slice())?;
    Ok(GraphProgram {
        dbs,
        globals: List::new(alloc),
        pous,
    })
}

/// The units of the blocks at these positions, of a program with these blocks, whose units have these positions.
fn units(
    alloc: Global,
    blocks: &[Block],
    order: &[u32],
    positions: &[u32],
) -> Result<List<GraphPou>, NoMemory>
    requires accepted { All IsAcceptedBlock blocks.now }
    requires positions { positions.now ≡ unit_positions blocks.now }
    requires order { AreBlocksAt blocks.now order.now (in_order blocks.now) }
    ensures units { IfOk result (λ units. AreMadeOf blocks.now (in_order blocks.now) units) }
    ensures few { OnOk result (AreFew blocks.now (in_order blocks.now)) }
{
    let mut units = List::new(alloc);
    let mut rest = order;
    while let Some((position, behind)) = rest.split_first() {
        if let Some(block) = blocks.get(*position as usize) {
            let unit = unit(alloc, blocks, positions, block)?;
            units.push(unit)?;
        }
        rest = behind;
    }
    Ok(units)
}

/// The unit of a block, of a program with these blocks, whose units have these positions.
fn unit(alloc: Global, blocks: &[Block], units: &[u32], block: &Block) -> Result<GraphPou, NoMemory>
    requires accepted { IsAcceptedBlock block.now }
    requires units { units.now ≡ unit_positions blocks.now }
    ensures unit { IfOk result (λ unit. IsMadeOf blocks.now block.now unit) }
    ensures few { OnOk result (IsFew blocks.now block.now) }
{
    let graph = graph_of(alloc, block.body.as_slice())?;
    let nodes = nodes(alloc, blocks, units, block.body.as_slice(), graph.nodes)?;
    let head = head(alloc, blocks, block)?;
    Ok(GraphPou {
        head,
        graph: StGraph { nodes },
    })
}

fn head(alloc: Global, blocks: &[Block], block: &Block) -> Result<Pou, NoMemory>
    ensures head { IfOk result (λ head. head ≡ head_for blocks.now block.now) }
    ensures few { OnOk result (IsFew blocks.now block.now) }
{
    let name = unit_name(alloc, block.name)?;
    let formals = unit_formals(alloc, block)?;
    let locals = locals_of(alloc, blocks, formals.as_slice(), block.body.as_slice())?;
    Ok(Pou {
        program: matches!(block.name, BlockName::Ob(_)),
        name,
        formals,
        locals,
        body: List::new(alloc),
    })
}

/// The nodes of a body with these blocks.
fn nodes(
    alloc: Global,
    blocks: &[Block],
    units: &[u32],
    body: &[Instr],
    extents: List<Node>,
) -> Result<List<StNode>, NoMemory>
    requires { units.now ≡ unit_positions blocks.now }
    ensures { IfOk result (λ nodes. nodes ≡ nodes_of blocks.now body.now extents) }
{
    let size = body.len();
    let mut nodes = List::from_vec(Vec::with_capacity(alloc, extents.len())?);
    let mut steps = List::new(alloc);
    let mut used: u32 = 0;
    let mut rest = body;
    for extent in extents.into_vec() {
        let count = extent.past.saturating_sub(extent.first) as usize;
        let mut spot = LoweringContext::from(alloc, used);
        push_steps(
            alloc,
            &mut steps,
            &mut spot,
            blocks,
            units,
            front_of(rest, count),
        )?;
        used = spot.used;
        let steps = all_moved(alloc, &mut steps)?;
        nodes.push(node(steps, used, extent, size))?;
        rest = rest_after(rest, count);
    }
    Ok(nodes)
}

/// All steps, moved to a list of their own, which has room for one more: the statement of an exit.
fn all_moved(alloc: Global, steps: &mut List<Stmt>) -> Result<List<Stmt>, NoMemory>
    ensures moved { IfOk result (λ moved. moved ≡ steps.old) }
    ensures left { OnOk result (steps.new ≡ []) }
{
    let mut all = replace(steps, List::new(alloc)).into_vec();
    let mut moved = Vec::with_capacity(alloc, all.len() + 1)?;
    moved.append(&mut all)?;
    *steps = List::from_vec(all);
    Ok(List::from_vec(moved))
}

/// The node with these steps, behind which there are so many locals, of a block of a body of this length.
fn node(steps: List<Stmt>, used: u32, block: Node, size: usize) -> StNode
    ensures { result ≡ node_with steps used block.exit (block.first + 1 == size) }
{
    StNode {
        steps,
        exit: exit_behind(used, block.exit),
        only_end: block.first as usize + 1 == size,
    }
}

/// The exit of a node: what it tests is in the last local.
fn exit_behind(used: u32, way: Exit) -> StExit
    ensures { result ≡ exit_behind used way }
{
    let last = used.saturating_sub(1);
    match way {
        Exit::Fall => StExit::Fall,
        Exit::Jump(node) => StExit::Jump(node),
        Exit::Branch(node) => StExit::Branch(local(last), node),
        Exit::EndIf => StExit::EndIf(local(last)),
        Exit::Table(nodes, node) => StExit::Table(local(last), nodes, node),
        Exit::End => StExit::End,
    }
}

/// Appends the statements of some instructions.
fn push_steps(
    alloc: Global,
    steps: &mut List<Stmt>,
    spot: &mut LoweringContext,
    blocks: &[Block],
    units: &[u32],
    instructions: &[Instr],
) -> Result<(), NoMemory>
    requires { units.now ≡ unit_positions blocks.now }
    ensures steps { OnOk result (steps.new ≡ steps.old ++ steps_of blocks.now spot.old instructions.now) }
    ensures used { OnOk result (spot.new.used ≡ used_behind blocks.now spot.old instructions.now) }
{
    let mut rest = instructions;
    while let Some((instr, behind)) = rest.split_first() {
        push_statements(alloc, steps, spot, blocks, units, &instr.op)?;
        rest = behind;
    }
    Ok(())
}
