//! The blocks of a unit: how each goes on, which of them are reached, and where loops end.
ghost use Rattle.std.specs.Prelude.{◌≡◌, ◌<◌, ◌≤◌, IfOk, None, fold, length, map, replicate};
ghost use Rattle.std.specs.List.{list_any};
ghost use Rattle.flow_graph.specs.Graphs.{ways_of};
ghost use Rattle.graph_rules.specs.Flow.{flow_of};
ghost use Rattle.segment_plans.specs.Known.{AreKnown, counts_from};
ghost use Rattle.segment_plans.specs.Counts.{count, is_bare, is_end, is_reached, last_of};
ghost use Rattle.segment_plans.specs.inner.Finding.{lasts_from, note, way_of};

use flow_graph::{Exit, reach};
use s7_base::{List, NoMemory};
use st_tree::{StExit, StNode};
use std::alloc::Global;

/// The blocks of a unit.
#[derive(Drop)]
pub struct Blocks {
    /// How the unit goes on after each block.
    pub exits: Vec<Exit>,

    /// Which blocks a path from the first one reaches.
    pub reached: Vec<bool>,

    /// For each block the last one that is reached and jumps back to it.
    pub lasts: Vec<Option<u32>>,

    /// How many blocks before each one are reached, and how many in all.
    pub counts: Vec<u32>,

    /// The last block is that of the end word alone.
    pub ends_alone: bool,
}

impl Blocks {
    /// Whether a path from the first block reaches this one.
    pub fn is_reached(&self, number: u32) -> bool
        ensures { result ≡ is_reached self.now number }
    {
        self.reached.get(number as usize).copied().unwrap_or(false)
    }

    /// The last block of the loop that begins at this one.
    pub fn last_of(&self, head: u32) -> Option<u32>
        ensures { result ≡ last_of self.now head }
    {
        self.lasts.get(head as usize).copied().unwrap_or(None)
    }

    /// Whether a block is that of the end word alone.
    pub fn is_end(&self, number: u32) -> bool
        ensures { result ≡ is_end self.now number }
    {
        self.ends_alone && number as usize + 1 == self.exits.len()
    }

    /// Whether no block after one and before another is reached.
    pub fn is_bare(&self, first: u32, past: u32) -> bool
        requires { first < past }
        ensures { result ≡ is_bare self.now first past }
    {
        self.count(first + 1) == self.count(past)
    }

    /// How many blocks before this one are reached.
    fn count(&self, number: u32) -> u32
        ensures { result ≡ count self.now number }
    {
        self.counts.get(number as usize).copied().unwrap_or(0)
    }
}

/// A list of the same numbers.
fn copy_of(alloc: Global, numbers: &[u32]) -> Result<List<u32>, NoMemory>
    ensures { IfOk result (λ copy. copy ≡ numbers.now) }
{
    let items = Vec::from_slice(alloc, numbers)?;
    Ok(List::from_vec(items))
}

/// How a unit goes on after a node, without what the node tests.
fn way_of(alloc: Global, exit: &StExit) -> Result<Exit, NoMemory>
    ensures { IfOk result (λ way. way ≡ way_of exit.now) }
{
    match exit {
        StExit::Fall => Ok(Exit::Fall),
        StExit::Jump(to) => Ok(Exit::Jump(*to)),
        StExit::Branch(_, to) => Ok(Exit::Branch(*to)),
        StExit::EndIf(_) => Ok(Exit::EndIf),
        StExit::Table(_, targets, last) => {
            let targets = copy_of(alloc, targets.as_slice())?;
            Ok(Exit::Table(targets, *last))
        }
        StExit::End => Ok(Exit::End),
    }
}

/// How a unit goes on after each of its nodes.
fn exits_of(alloc: Global, nodes: &[StNode]) -> Result<Vec<Exit>, NoMemory>
    ensures { IfOk result (λ exits. exits.items ≡ map (λ node. way_of node.exit) nodes.now) }
{
    let mut exits = Vec::new(alloc);
    for node in nodes {
        exits.push(way_of(alloc, &node.exit)?)?;
    }
    Ok(exits)
}

/// Whether some node stands for the end word alone.
fn ends_alone(nodes: &[StNode]) -> bool
    ensures { result ≡ list_any (λ node. node.only_end) nodes.now }
{
    nodes.iter().any(|node| node.only_end)
}

/// Notes a jump, if it leads back.
fn note(lasts: &mut [Option<u32>], from: u32, to: u32)
    ensures { lasts.new ≡ note from lasts.old to }
{
    if to <= from && (to as usize) < lasts.len() {
        lasts[to as usize] = Some(from);
    }
}

fn note_all(lasts: &mut [Option<u32>], from: u32, targets: &[u32])
    ensures { lasts.new ≡ fold (note from) lasts.old targets.now }
{
    for to in targets {
        note(lasts, from, *to);
    }
}

/// Notes the jumps of an exit that lead back.
fn note_exit(lasts: &mut [Option<u32>], from: u32, exit: &Exit)
    ensures { lasts.new ≡ fold (note from) lasts.old (ways_of exit.now).jumps }
{
    match exit {
        Exit::Jump(to) | Exit::Branch(to) => note(lasts, from, *to),
        Exit::Table(targets, to) => {
            note(lasts, from, *to);
            note_all(lasts, from, targets.as_slice());
        }
        Exit::Fall | Exit::EndIf | Exit::End => {}
    }
}

/// For each block the last one that is reached and jumps back to it.
fn lasts_of(alloc: Global, exits: &[Exit], reached: &[bool]) -> Result<Vec<Option<u32>>, NoMemory>
    requires few { length exits.now ≤ 32769 }
    requires all { length reached.now ≡ length exits.now }
    ensures { IfOk result
        (λ lasts. lasts.items ≡ lasts_from reached.now 0 exits.now (replicate (length exits.now) None)) }
{
    let mut lasts = Vec::new(alloc);
    lasts.resize(exits.len(), None)?;
    for (from, exit) in exits.iter().enumerate() {
        if reached[from] {
            note_exit(lasts.as_mut_slice(), from as u32, exit);
        }
    }
    Ok(lasts)
}

/// How many blocks before each one are reached, and how many in all.
fn counts_of(alloc: Global, reached: &[bool]) -> Result<Vec<u32>, NoMemory>
    requires { length reached.now ≤ 32769 }
    ensures { IfOk result (λ counts. counts.items ≡ counts_from 0 reached.now) }
{
    let mut counts = Vec::new(alloc);
    let mut count: u32 = 0;
    for is_reached in reached {
        counts.push(count)?;
        if *is_reached {
            count += 1;
        }
    }
    counts.push(count)?;
    Ok(counts)
}

/// The blocks of a unit with these nodes.
#[tactic(auto, using(crate::proofs::Lasts::size_of_exits, crate::proofs::Lasts::size_of_reached))]
pub fn blocks_of(alloc: Global, nodes: &[StNode]) -> Result<Blocks, NoMemory>
    requires { length nodes.now ≤ 32769 }
    ensures { IfOk result (AreKnown (flow_of nodes.now)) }
{
    let exits = exits_of(alloc, nodes)?;
    let reached = reach(alloc, exits.as_slice())?;
    let lasts = lasts_of(alloc, exits.as_slice(), reached.as_slice())?;
    let counts = counts_of(alloc, reached.as_slice())?;
    let ends_alone = ends_alone(nodes);
    Ok(Blocks {
        exits,
        reached,
        lasts,
        counts,
        ends_alone,
    })
}
