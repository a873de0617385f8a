//! Whether blocks right before arms of jump lists end arms, be they reached or not.
ghost use Rattle.std.specs.Prelude.{◌≡◌, ◌-◌, ◌∷◌, slice_get};
ghost use Rattle.std.specs.List.{list_all};
ghost use Rattle.segment_plans.specs.inner.Spans.{all_closed, are_all_closed, are_closed, closes_arm, ends_arm_by, inner_at, list_end};

use crate::blocks::Blocks;
use crate::planning::is_behind;
use crate::spans::{inner_at, left_by, list_end};
use flow_graph::Exit;

/// A block ends an arm, as it goes on. The end of all arms, and the innermost loop around the block, are known.
fn ends_arm(blocks: &Blocks, innermost: Option<u32>, end: u32, at: u32) -> bool
    ensures { result ≡ ends_arm_by blocks.now innermost end at (slice_get blocks.now.exits.items at) }
{
    match blocks.exits.as_slice().get(at as usize) {
        Some(Exit::Jump(to)) => {
            *to == end || *to <= at || left_by(innermost, *to) || blocks.is_end(*to)
        }
        Some(Exit::End) => true,
        _ => false,
    }
}

/// The block before a target of a list, if that is not the list, ends an arm.
fn closes_arm(
    blocks: &Blocks,
    inner: &[Option<u32>],
    first: u32,
    list: u32,
    end: u32,
    to: u32,
) -> bool
    ensures { result ≡ closes_arm blocks.now inner.now first list end to }
{
    let before = to.saturating_sub(1);
    is_behind(to, list)
        || ends_arm(
            blocks,
            inner_at(inner, before.saturating_sub(first)),
            end,
            before,
        )
}

fn close_arms(
    blocks: &Blocks,
    inner: &[Option<u32>],
    first: u32,
    list: u32,
    end: u32,
    targets: &[u32],
) -> bool
    ensures { result ≡ list_all (closes_arm blocks.now inner.now first list end) targets.now }
{
    targets
        .iter()
        .all(|to| closes_arm(blocks, inner, first, list, end, *to))
}

/// The blocks before the targets of a list, its label among them, end arms.
#[tactic(auto, unfolding(crate::specs::inner::Spans::are_all_closed))]
fn close_all(
    blocks: &Blocks,
    inner: &[Option<u32>],
    first: u32,
    list: u32,
    targets: &[u32],
    label: u32,
) -> bool
    ensures { result ≡ are_all_closed blocks.now inner.now first list (label ∷ targets.now) }
{
    let end = list_end(blocks, inner_at(inner, list.saturating_sub(first)), list);
    closes_arm(blocks, inner, first, list, end, label)
        && close_arms(blocks, inner, first, list, end, targets)
}

/// All blocks right before arms of the jump list of a block, if it has one, end arms.
fn are_closed(blocks: &Blocks, inner: &[Option<u32>], first: u32, list: u32) -> bool
    ensures { result ≡ are_closed blocks.now inner.now first list }
{
    if !blocks.is_reached(list) {
        return true;
    }
    match blocks.exits.as_slice().get(list as usize) {
        Some(Exit::Table(targets, label)) => {
            close_all(blocks, inner, first, list, targets.as_slice(), *label)
        }
        _ => true,
    }
}

/// All blocks of a segment right before arms of jump lists end arms.
pub fn all_closed(blocks: &Blocks, inner: &[Option<u32>], first: u32, past: u32) -> bool
    ensures { result ≡ all_closed blocks.now inner.now first first (past - first) }
{
    for at in first..past {
        if !are_closed(blocks, inner, first, at) {
            return false;
        }
    }
    true
}
