//! How a body goes on after a block.
ghost use Rattle.std.specs.Prelude.{◌≡◌, map, IfOk, OnOk};
ghost use Rattle.std.specs.List.{flat_map};
ghost use Rattle.stl_tree.specs.Accepted.{targets_of};
ghost use Rattle.stl_tree.specs.Blocks.{one_of, way_after, way_of};
ghost use Rattle.flow_graph.specs.inner.Making.{exit_by, number_at};

use crate::beginnings::target_of;
use crate::graph::Exit;
use s7_base::{List, NoMemory, rest_after};
use std::alloc::Global;
use stl_tree::{Instr, JumpTest, Op};

fn number_at(numbers: &[u32], at: u32) -> u32
    ensures { result ≡ number_at numbers.now at }
{
    numbers.get(at as usize).copied().unwrap_or(0)
}

/// The exit after a block whose last instruction this is.
fn exit_after(alloc: Global, numbers: &[u32], op: &Op) -> Exit
    ensures { result ≡ exit_by numbers.now (way_after op.now) }
{
    match op {
        Op::Jump(JumpTest::Always, to) => Exit::Jump(number_at(numbers, *to)),
        Op::Jump(_, to) | Op::Loop(to) => Exit::Branch(number_at(numbers, *to)),
        Op::JumpList(_, label) => Exit::Table(List::new(alloc), number_at(numbers, *label)),
        Op::BlockEnd => Exit::End,
        Op::BlockEndIf => Exit::EndIf,
        _ => Exit::Fall,
    }
}

/// The exit after a jump list with its `JU`.
fn table(alloc: Global, numbers: &[u32], listed: &[Instr], label: u32) -> Result<Exit, NoMemory>
    ensures { IfOk result
        (λ exit. exit ≡ exit_by numbers.now (one_of (flat_map (λ i. targets_of i.op) listed.now) label)) }
{
    let mut entries = List::new(alloc);
    for instr in listed {
        if let Some(to) = target_of(&instr.op) {
            entries.push(number_at(numbers, to))?;
        }
    }
    Ok(Exit::Table(entries, number_at(numbers, label)))
}

/// The exit after a block of these instructions.
pub fn exit_of(alloc: Global, numbers: &[u32], block: &[Instr]) -> Result<Exit, NoMemory>
    ensures { IfOk result (λ exit. exit ≡ exit_by numbers.now (way_of block.now)) }
{
    let mut rest = block;
    while let [instr, ..] = rest {
        let more = rest_after(rest, 1);
        if let Op::JumpList(_, label) = &instr.op {
            return table(alloc, numbers, more, *label);
        }
        if more.is_empty() {
            return Ok(exit_after(alloc, numbers, &instr.op));
        }
        rest = more;
    }
    Ok(Exit::Fall)
}
