//! The nodes of a body.
ghost use Rattle.std.specs.Prelude.{◌≡◌, ◌<◌, ◌≤◌, length, IfOk};
ghost use Rattle.stl_tree.specs.Accepted.{AreTargets};
ghost use Rattle.flow_graph.specs.inner.Making.{AreBlocks, bounds_from, exit_between, exits_from, joined_from};

use crate::beginnings::{beginnings, numbers};
use crate::exits::exit_of;
use crate::graph::{Exit, Node};
use s7_base::{List, NoMemory, front_of, rest_after};
use std::alloc::Global;
use stl_tree::Instr;

/// The positions at which blocks begin, and the end of the body.
fn bounds(alloc: Global, begins: &[bool]) -> Result<Vec<u32>, NoMemory>
    requires { length begins.now ≤ 32769 }
    ensures { IfOk result (λ bounds. bounds.items ≡ bounds_from 0 begins.now) }
{
    let mut bounds = Vec::new(alloc);
    for (at, is_first) in begins.iter().enumerate() {
        if *is_first {
            bounds.push(at as u32)?;
        }
    }
    bounds.push(begins.len() as u32)?;
    Ok(bounds)
}

/// The exit after the block from a position to the one before another.
fn exit_between(
    alloc: Global,
    numbers: &[u32],
    body: &[Instr],
    first: u32,
    past: u32,
) -> Result<Exit, NoMemory>
    ensures { IfOk result (λ exit. exit ≡ exit_between numbers.now body.now first past) }
{
    let count = past.saturating_sub(first) as usize;
    exit_of(
        alloc,
        numbers,
        front_of(rest_after(body, first as usize), count),
    )
}

/// The exits after the blocks between these positions.
fn exits(
    alloc: Global,
    numbers: &[u32],
    body: &[Instr],
    bounds: &[u32],
) -> Result<Vec<Exit>, NoMemory>
    ensures { IfOk result (λ exits. exits.items ≡ exits_from numbers.now body.now bounds.now) }
{
    let mut exits = Vec::new(alloc);
    let mut rest = bounds;
    while let [first, past, ..] = rest {
        exits.push(exit_between(alloc, numbers, body, *first, *past)?)?;
        rest = rest_after(rest, 1);
    }
    Ok(exits)
}

/// The positions between which the blocks of a body lie, and the exits after these.
pub fn blocks(alloc: Global, body: &[Instr]) -> Result<(Vec<u32>, Vec<Exit>), NoMemory>
    requires some { 0 < length body.now }
    requires few { length body.now ≤ 32769 }
    requires targets { AreTargets body.now }
    ensures { IfOk result (λ blocks. AreBlocks body.now blocks.0.items blocks.1.items) }
{
    let begins = beginnings(alloc, body)?;
    let numbers = numbers(alloc, begins.as_slice())?;
    let bounds = bounds(alloc, begins.as_slice())?;
    let exits = exits(alloc, numbers.as_slice(), body, bounds.as_slice())?;
    Ok((bounds, exits))
}

/// The nodes with these exits, of the blocks between these positions.
#[tactic(auto, using(crate::proofs::Making::one_more_node))]
pub fn joined_nodes(alloc: Global, bounds: &[u32], exits: Vec<Exit>) -> Result<List<Node>, NoMemory>
    ensures { IfOk result (λ nodes. nodes ≡ joined_from 0 bounds.now exits.items) }
{
    let mut nodes = List::new(alloc);
    let mut at: usize = 0;
    for exit in exits {
        let after = at.checked_add(1).ok_or(NoMemory)?;
        nodes.push(Node {
            first: bounds.get(at).copied().unwrap_or(0),
            past: bounds.get(after).copied().unwrap_or(0),
            exit,
        })?;
        at = after;
    }
    Ok(nodes)
}
