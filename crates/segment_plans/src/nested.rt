//! Whether a segment can be written without the selector.
ghost use Rattle.std.specs.Bool.{Decides};
ghost use Rattle.std.specs.Prelude.{◌≡◌, ◌-◌, ◌≤◌, ◌||◌, IfOk, false};
ghost use Rattle.nesting_laws.specs.PlanLaws.{IsFlow};
ghost use Rattle.nesting_laws.specs.Splitting.{MaySplit};
ghost use Rattle.stl_tree.specs.Flows.{IsSegment, Segment};
ghost use Rattle.segment_plans.specs.Known.{AreKnown};
ghost use Rattle.segment_plans.specs.Planned.{whole};
ghost use Rattle.segment_plans.specs.inner.Spans.{all_closed, few_heads};

use crate::blocks::Blocks;
use crate::closed::all_closed;
use crate::planning::{Around, Kind, Part, splits};
use crate::spans::{inner_loops, is_shallow};
use s7_base::NoMemory;
use std::alloc::Global;

/// How many loops and arms may lie in one another.
const LEVELS: u32 = 64;

/// The whole of a segment, from its first block on.
pub fn whole(past: u32) -> Part
    ensures { result ≡ whole past }
{
    Part {
        past,
        follow: past,
        around: Around::NoLoop,
        kind: Kind::Blocks,
    }
}

/// A segment has at most one loop.
fn has_one_loop(blocks: &Blocks, first: u32, past: u32) -> bool
    ensures { result ≡ few_heads blocks.now false first (past - first) }
{
    let mut found = false;
    for at in first..past {
        let is_head = blocks.last_of(at).is_some();
        if is_head && found {
            return false;
        }
        found = found || is_head;
    }
    true
}

/// Blocks right before arms of jump lists end arms, or the segment has at most one loop.
fn is_closed_or_one_loop(blocks: &Blocks, inner: &[Option<u32>], first: u32, past: u32) -> bool
    ensures { result ≡ (all_closed blocks.now inner.now first first (past - first)
        || few_heads blocks.now false first (past - first)) }
{
    all_closed(blocks, inner, first, past) || has_one_loop(blocks, first, past)
}

/// Whether the segment of the blocks from the first one up to, and not including, another may be written without the
/// selector.
pub fn may_split(alloc: Global, blocks: &Blocks, first: u32, past: u32) -> Result<bool, NoMemory>
    requires { first ≤ past }
    ensures { IfOk result (λ split. (g : Segment) → g.first ≡ first → g.past ≡ past → IsSegment g → IsFlow g.flow
        → AreKnown g.flow blocks.now → Decides split (MaySplit g)) }
{
    if !splits(blocks, whole(past), first, false, LEVELS) {
        return Ok(false);
    }
    let inner = inner_loops(alloc, blocks, first, past)?;
    let inner = inner.as_slice();
    if is_closed_or_one_loop(blocks, inner, first, past) {
        is_shallow(alloc, blocks, inner, first, past)
    } else {
        Ok(false)
    }
}
