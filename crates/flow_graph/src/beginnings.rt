//! Where the blocks of a body begin.
ghost use Rattle.std.specs.Prelude.{◌≡◌, ◌≤◌, false, true, length, fold, option_to_list, replicate, IfOk};
ghost use Rattle.stl_tree.specs.Accepted.{targets_of};
ghost use Rattle.stl_tree.specs.Blocks.{goes_elsewhere, still_listed};
ghost use Rattle.flow_graph.specs.inner.Beginnings.{AreBeginnings, begins_from, mark, mark_of, numbers_from};

use s7_base::NoMemory;
use std::alloc::Global;
use stl_tree::{Instr, Op};

/// The position to which an instruction jumps; that of its label for a jump list.
pub fn target_of(op: &Op) -> Option<u32>
    ensures { option_to_list result ≡ targets_of op.now }
{
    match op {
        Op::Jump(_, to) | Op::Loop(to) | Op::JumpList(_, to) => Some(*to),
        _ => None,
    }
}

fn goes_elsewhere(op: &Op) -> bool
    ensures { result ≡ goes_elsewhere op.now }
{
    match op {
        Op::Jump(_, _) | Op::Loop(_) | Op::JumpList(_, _) | Op::BlockEnd | Op::BlockEndIf => true,
        _ => false,
    }
}

/// How many `JU` of a jump list are to come after an instruction, where so many were before it.
fn still_listed(op: &Op, left: u32) -> u32
    ensures { result ≡ still_listed op.now left }
{
    match op {
        Op::JumpList(count, _) => u32::from(*count),
        _ => left.saturating_sub(1),
    }
}

fn mark(marks: &mut [bool], target: Option<u32>)
    ensures { marks.new ≡ mark marks.old target }
{
    if let Some(to) = target {
        if (to as usize) < marks.len() {
            marks[to as usize] = true;
        }
    }
}

/// Which instructions of a body are jumped to.
#[tactic(auto, using(crate::proofs::Marks::mark_one))]
fn target_marks(alloc: Global, body: &[Instr]) -> Result<Vec<bool>, NoMemory>
    ensures { IfOk result (λ marks. marks.items ≡ fold mark_of (replicate (length body.now) false) body.now) }
{
    let mut marks = Vec::new(alloc);
    marks.resize(body.len(), false)?;
    for instr in body {
        mark(marks.as_mut_slice(), target_of(&instr.op));
    }
    Ok(marks)
}

/// Where blocks begin, where some instructions are jumped to.
fn begins_from(alloc: Global, aimed: &[bool], body: &[Instr]) -> Result<Vec<bool>, NoMemory>
    requires { length aimed.now ≡ length body.now }
    ensures { IfOk result (λ begins. begins.items ≡ begins_from aimed.now true 0 0 body.now) }
{
    let mut begins = Vec::new(alloc);
    let mut after = true;
    let mut left = 0;
    for (at, instr) in body.iter().enumerate() {
        begins.push(after || aimed[at])?;
        left = still_listed(&instr.op, left);
        after = goes_elsewhere(&instr.op) && left == 0;
    }
    Ok(begins)
}

/// Where the blocks of a body begin.
#[tactic(auto, using(crate::proofs::Marks::are_beginnings, crate::proofs::Marks::size_of_aimed))]
pub fn beginnings(alloc: Global, body: &[Instr]) -> Result<Vec<bool>, NoMemory>
    ensures { IfOk result (λ begins. AreBeginnings body.now begins.items) }
{
    let aimed = target_marks(alloc, body)?;
    begins_from(alloc, aimed.as_slice(), body)
}

/// The numbers of the blocks that begin at the positions of a body; at others the number of the next block.
pub fn numbers(alloc: Global, begins: &[bool]) -> Result<Vec<u32>, NoMemory>
    requires { length begins.now ≤ 32769 }
    ensures { IfOk result (λ numbers. numbers.items ≡ numbers_from 0 begins.now) }
{
    let mut numbers = Vec::new(alloc);
    let mut number = 0;
    for begins in begins {
        numbers.push(number)?;
        if *begins {
            number += 1;
        }
    }
    Ok(numbers)
}
