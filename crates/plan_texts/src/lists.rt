//! The arms of a CASE in place of a jump list: one for each block to which entries lead, but for the label.
ghost use Rattle.std.specs.Prelude.{◌≡◌, [], ◌∷◌, ◌++◌, ◌<◌, ◌≤◌, ◌+◌, IfOk, OnOk};
ghost use Rattle.region_laws.specs.Regions.{is_among, positions_of};
ghost use Rattle.segment_plans.specs.Arms.{next_arm};
ghost use Rattle.plan_texts.specs.inner.Lists.{last_arm, node_arm};

use s7_base::{List, NoMemory};
use segment_plans::{Blocks, next_arm};
use st_tree::{CaseArm, Stmt};
use std::alloc::Global;

/// A jump list that is written: its block, the block where all its arms end, and where its entries lead.
#[derive(Clone, Copy)]
pub struct JumpList<'a> {
    pub block: u32,
    pub end: u32,
    pub targets: &'a [u32],
}

/// Where the arm of the label ends, which is the first one.
pub fn label_end(blocks: &Blocks, block: u32, end: u32) -> u32
    requires { block < end }
    ensures is { result ≡ next_arm blocks.now block (block + 1) end }
    ensures above { block < result }
    ensures within { result ≤ end }
{
    if block + 1 < end {
        next_arm(blocks, block, block + 1, end)
    } else {
        end
    }
}

/// The positions of the entries that lead to a block.
fn positions(alloc: Global, targets: &[u32], block: u32) -> Result<List<i64>, NoMemory>
    ensures { IfOk result (λ labels. labels ≡ positions_of block 0 targets.now) }
{
    let mut labels = List::new(alloc);
    let mut position: u32 = 0;
    for target in targets {
        if *target == block {
            labels.push(i64::from(position))?;
        }
        position = position.checked_add(1).ok_or(NoMemory)?;
    }
    Ok(labels)
}

/// The arm of a block to which entries lead.
pub fn node_arm(
    alloc: Global,
    targets: &[u32],
    block: u32,
    body: List<Stmt>,
) -> Result<CaseArm, NoMemory>
    ensures { IfOk result (λ arm. arm ≡ node_arm targets.now block body) }
{
    let labels = positions(alloc, targets, block)?;
    Ok(CaseArm { labels, body })
}

/// Entries lead to a block.
fn is_among(block: u32, targets: &[u32]) -> bool
    ensures { result ≡ is_among block targets.now }
{
    targets.iter().any(|target| *target == block)
}

/// Writes an arm without statements, if entries lead to the block where all arms end: they may not come to ELSE.
pub fn push_last_arm(
    alloc: Global,
    arms: &mut List<CaseArm>,
    targets: &[u32],
    end: u32,
) -> Result<(), NoMemory>
    ensures { OnOk result (arms.new ≡ arms.old ++ last_arm targets.now end) }
{
    if is_among(end, targets) {
        arms.push(node_arm(alloc, targets, end, List::new(alloc))?)?;
    }
    Ok(())
}
