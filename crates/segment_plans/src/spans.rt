//! The innermost loops around the blocks of a segment, and whether each block lies in few loops, jumps and jump lists.
ghost use Rattle.std.specs.Bool.{Decides};
ghost use Rattle.std.specs.Prelude.{◌≡◌, ◌-◌, IfOk, OnOk, get_or, length, option_to_list};
ghost use Rattle.nesting_laws.specs.PlanLaws.{IsFlow, IsNested};
ghost use Rattle.stl_tree.specs.Flows.{IsSegment, Segment};
ghost use Rattle.stl_tree.specs.WellNested.{IsShallow};
ghost use Rattle.segment_plans.specs.Known.{AreKnown};
ghost use Rattle.segment_plans.specs.inner.Spans.{inner_at, inner_loops, innermost, is_plain, leave, left_by, list_end, loop_by, note_end, span_end, with_loop};

use crate::arms::arms_end;
use crate::blocks::Blocks;
use crate::planning::{Around, is_behind};
use flow_graph::Exit;
use s7_base::NoMemory;
use std::alloc::Global;
use std::collections::LinkedList;

/// How many loops, plain jumps and jump lists a block may lie in.
const MOST: u32 = 64;

/// Leaves the loops that end before a block. They are known by their last blocks, the innermost one first.
fn leave(loops: &mut LinkedList<u32>, at: u32)
    ensures { loops.new ≡ leave at loops.old }
{
    while let Some(last) = innermost(loops) {
        if last >= at {
            return;
        }
        let _left = loops.pop_front();
    }
}

/// The last block of the innermost loop.
fn innermost(loops: &LinkedList<u32>) -> Option<u32>
    ensures { result ≡ innermost loops.now }
{
    loops.front().copied()
}

/// Begins a loop, if one begins.
fn begin_loop(loops: &mut LinkedList<u32>, last: Option<u32>) -> Result<(), NoMemory>
    ensures { OnOk result (loops.new ≡ with_loop last loops.old) }
{
    if let Some(last) = last {
        loops.push_front(last)?;
    }
    Ok(())
}

/// A jump to a block leaves the innermost loop for the block behind it.
pub fn left_by(innermost: Option<u32>, to: u32) -> bool
    ensures { result ≡ left_by innermost to }
{
    match innermost {
        Some(last) => is_behind(to, last),
        None => false,
    }
}

/// The innermost loop around each block of a segment, by its last block.
pub fn inner_loops(
    alloc: Global,
    blocks: &Blocks,
    first: u32,
    past: u32,
) -> Result<Vec<Option<u32>>, NoMemory>
    ensures { IfOk result (λ inner. inner.items ≡ inner_loops blocks.now first (past - first)) }
{
    let mut inner = Vec::new(alloc);
    let mut loops = LinkedList::new(alloc);
    for at in first..past {
        leave(&mut loops, at);
        begin_loop(&mut loops, blocks.last_of(at))?;
        inner.push(innermost(&loops))?;
    }
    Ok(inner)
}

/// The innermost loop around the block at a place of a segment.
pub fn inner_at(inner: &[Option<u32>], place: u32) -> Option<u32>
    ensures { result ≡ inner_at inner.now place }
{
    inner.get(place as usize).copied().unwrap_or(None)
}

fn is_plain(blocks: &Blocks, innermost: Option<u32>, at: u32, to: u32) -> bool
    ensures { result ≡ is_plain blocks.now innermost at to }
{
    at < to && blocks.is_reached(at) && !blocks.is_end(to) && !left_by(innermost, to)
}

/// The loop around a block, of which the last block alone is asked for.
fn loop_by(at: u32, innermost: Option<u32>) -> Around
    ensures { result ≡ loop_by at innermost }
{
    match innermost {
        Some(last) => Around::Inside(at, last, true),
        None => Around::NoLoop,
    }
}

/// Where the arms of the jump list of a block end. The innermost loop around has this last block.
pub fn list_end(blocks: &Blocks, innermost: Option<u32>, at: u32) -> u32
    ensures { result ≡ list_end blocks.now innermost at }
{
    arms_end(blocks, loop_by(at, innermost), at)
}

/// Where the plain jump of a block leads, or the arms of its jump list end, if it has one.
fn span_end(blocks: &Blocks, innermost: Option<u32>, at: u32) -> Option<u32>
    ensures { result ≡ span_end blocks.now innermost at }
{
    match blocks.exits.as_slice().get(at as usize) {
        Some(Exit::Jump(to)) | Some(Exit::Branch(to)) if is_plain(blocks, innermost, at, *to) => {
            Some(*to)
        }
        Some(Exit::Table(_, _)) if blocks.is_reached(at) => Some(list_end(blocks, innermost, at)),
        _ => None,
    }
}

/// Notes where a loop, a jump or a jump list ends, if one begins.
fn note_end(ends: &mut [u32], first: u32, end: Option<u32>) -> Result<(), NoMemory>
    ensures { OnOk result (ends.new ≡ note_end first ends.old end) }
{
    if let Some(end) = end {
        let place = end.saturating_sub(first) as usize;
        if place < ends.len() {
            ends[place] = ends[place].checked_add(1).ok_or(NoMemory)?;
        }
    }
    Ok(())
}

fn note_both(
    ends: &mut [u32],
    first: u32,
    last: Option<u32>,
    to: Option<u32>,
) -> Result<(), NoMemory>
    ensures { OnOk result (ends.new ≡ note_end first (note_end first ends.old last) to) }
{
    note_end(ends, first, last)?;
    note_end(ends, first, to)
}

/// How many loops or jumps an end is.
fn count_of(end: Option<u32>) -> u32
    ensures { result ≡ length (option_to_list end) }
{
    match end {
        Some(_) => 1,
        None => 0,
    }
}

/// Whether no block lies in more than 64 loops, plain jumps and jump lists of a nested segment, of which the innermost
/// loops around its blocks are known.
pub fn is_shallow(
    alloc: Global,
    blocks: &Blocks,
    inner: &[Option<u32>],
    first: u32,
    past: u32,
) -> Result<bool, NoMemory>
    requires { inner.now ≡ inner_loops blocks.now first (past - first) }
    ensures { IfOk result (λ shallow. (g : Segment) → g.first ≡ first → g.past ≡ past → IsFlow g.flow → IsSegment g
        → AreKnown g.flow blocks.now → IsNested g → Decides shallow (IsShallow g)) }
{
    let mut ends = Vec::new(alloc);
    ends.resize(past.saturating_sub(first) as usize + 1, 0)?;
    let mut depth: u32 = 0;
    for at in first..past {
        let last = blocks.last_of(at);
        let to = span_end(blocks, inner_at(inner, at - first), at);
        note_both(ends.as_mut_slice(), first, last, to)?;
        depth = depth + count_of(last) + count_of(to);
        if depth > MOST {
            return Ok(false);
        }
        depth = depth.saturating_sub(ended(ends.as_slice(), at - first));
    }
    Ok(true)
}

/// How many loops, jumps and jump lists end at a block.
fn ended(ends: &[u32], place: u32) -> u32
    ensures { result ≡ get_or ends.now place 0 }
{
    ends.get(place as usize).copied().unwrap_or(0)
}
