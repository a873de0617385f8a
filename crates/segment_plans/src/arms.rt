//! The jump list of a block: to which blocks it leads, and where the arms that begin there end.
//!
//! A list has at most 255 entries, and each of its arms looks at them all. To find where the arms end, the blocks before
//! the last one are looked at, once for each list around them.
ghost use Rattle.std.specs.Prelude.{◌≡◌, ◌<◌, ◌≤◌, ◌+◌, ◌==◌, ◌&&◌, nat_lt, slice_get};
ghost use Rattle.std.specs.List.{list_all, list_any};
ghost use Rattle.segment_plans.specs.Arms.{arms_end, is_way_out, jump_over, last_target, nearer, next_arm, over_if};
ghost use Rattle.segment_plans.specs.inner.Pieces.{are_arms, ends_by, is_closed};

use crate::blocks::Blocks;
use crate::planning::{Around, is_behind};
use flow_graph::Exit;

/// A block begins the next turn of the loop around, or follows that loop where it may be left.
pub fn is_way_out(around: Around, to: u32) -> bool
    ensures { result ≡ is_way_out around to }
{
    match around {
        Around::NoLoop => false,
        Around::Inside(head, last, left) => to == head || (left && is_behind(to, last)),
    }
}

/// The last block to which the jump list of a block leads.
pub fn last_target(blocks: &Blocks, list: u32) -> u32
    ensures { result ≡ last_target blocks.now list }
{
    let Some(Exit::Table(targets, label)) = blocks.exits.as_slice().get(list as usize) else {
        return 0;
    };
    let mut last = *label;
    for to in targets.as_slice() {
        last = last.max(*to);
    }
    last
}

/// The nearer of two ends of what stands after a block.
fn nearer(at: u32, end: u32, to: u32) -> u32
    ensures { result ≡ nearer at end to }
{
    if at < to && to < end { to } else { end }
}

/// The next block after one to which the jump list of a block leads, or the end of all arms.
pub fn next_arm(blocks: &Blocks, list: u32, at: u32, end: u32) -> u32
    requires { at < end }
    ensures is { result ≡ next_arm blocks.now list at end }
    ensures above { at < result }
    ensures within { result ≤ end }
{
    let Some(Exit::Table(targets, label)) = blocks.exits.as_slice().get(list as usize) else {
        return end;
    };
    let mut next = nearer(at, end, *label);
    for to in targets.as_slice() {
        next = nearer(at, next, *to);
    }
    next
}

/// Where a jump leads that passes over a block, if it is no way out of the loop around and not to the end word.
fn over_if(blocks: &Blocks, around: Around, last: u32, to: u32) -> Option<u32>
    ensures { result ≡ over_if blocks.now around last to }
{
    if last < to && !(is_way_out(around, to) || blocks.is_end(to)) {
        Some(to)
    } else {
        None
    }
}

/// Where the jump of a block leads, if it is such a one.
fn jump_over(blocks: &Blocks, around: Around, last: u32, source: u32) -> Option<u32>
    ensures { result ≡ jump_over blocks.now around last source }
{
    if !blocks.is_reached(source) {
        return None;
    }
    match blocks.exits.as_slice().get(source as usize) {
        Some(Exit::Jump(to)) | Some(Exit::Branch(to)) => over_if(blocks, around, last, *to),
        _ => None,
    }
}

/// Where the arms of the jump list of a block end: where the first jump over its last target leads, or there.
pub fn arms_end(blocks: &Blocks, around: Around, list: u32) -> u32
    ensures { result ≡ arms_end blocks.now around list }
{
    let last = last_target(blocks, list);
    for source in list.saturating_add(1)..last {
        if let Some(to) = jump_over(blocks, around, last, source) {
            return to;
        }
    }
    last
}

/// A block ends an arm of a jump list, as it goes on.
fn ends_arm(blocks: &Blocks, at: usize) -> bool
    ensures { result ≡ ends_by (slice_get blocks.now.exits.items at) }
{
    matches!(
        blocks.exits.as_slice().get(at),
        Some(Exit::Jump(_)) | Some(Exit::End)
    )
}

/// The block before a target of a list does not go on with it, if that is not the list.
fn is_closed(blocks: &Blocks, list: u32, to: u32) -> bool
    ensures { result ≡ is_closed blocks.now list to }
{
    let before = to.saturating_sub(1);
    is_behind(to, list) || !blocks.is_reached(before) || ends_arm(blocks, before as usize)
}

/// An arm of a list may begin at a block.
fn is_arm(blocks: &Blocks, list: u32, to: u32) -> bool
    ensures { result ≡ (nat_lt list to && is_closed blocks.now list to) }
{
    list < to && is_closed(blocks, list, to)
}

/// One of some blocks comes right behind a list.
fn begin_behind(list: u32, targets: &[u32]) -> bool
    ensures { result ≡ list_any (λ to. to == list + 1) targets.now }
{
    targets.iter().any(|to| is_behind(*to, list))
}

/// An arm of a list may begin at each of some blocks.
fn may_begin(blocks: &Blocks, list: u32, targets: &[u32]) -> bool
    ensures { result ≡ list_all (λ to. nat_lt list to && is_closed blocks.now list to) targets.now }
{
    targets.iter().all(|to| is_arm(blocks, list, *to))
}

/// The arms of a list begin behind it, and none goes on with the next one.
pub fn are_arms(blocks: &Blocks, list: u32) -> bool
    ensures { result ≡ are_arms blocks.now list }
{
    let Some(Exit::Table(targets, label)) = blocks.exits.as_slice().get(list as usize) else {
        return false;
    };
    let targets = targets.as_slice();
    let begins = is_behind(*label, list) || begin_behind(list, targets);
    begins && is_arm(blocks, list, *label) && may_begin(blocks, list, targets)
}
