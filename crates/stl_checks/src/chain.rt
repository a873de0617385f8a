//! The rules of the chain of calls.
ghost use Rattle.std.specs.Prelude.{◌≡◌, ◌++◌, IfOk, OnOk};
ghost use Rattle.call_chains.specs.Chain.{chains};
ghost use Rattle.memory_areas.specs.declared.sizes.TheConstants.{ACTIVATIONS};
ghost use Rattle.s7_base.specs.Broken.{first_of_all};
ghost use Rattle.stl_checks.specs.inner.Chains.{calls_by, calls_of_body, first_in_chain, graph_of, headings_of};
ghost use Rattle.stl_rules.specs.Stages.{cycle_breaks, deep_breaks, or_deep};

use crate::labels::note_if;
use call_chains::{Call, chains, first_cycle};
use memory_areas::ACTIVATIONS;
use s7_base::{Break, Line, List, NoMemory, Reason, first_of_all, rest_after};
use std::alloc::Global;
use stl_tree::{Block, Instr, Op, Program};

/// Adds the call of an instruction, if it is one.
fn put_call(calls: &mut List<Call>, instr: &Instr) -> Result<(), NoMemory>
    ensures { OnOk result (calls.new ≡ calls.old ++ calls_by instr.now.line instr.now.op) }
{
    match &instr.op {
        Op::Call(call) | Op::CallIf(call) => calls.push(Call {
            line: instr.line,
            callee: call.block,
        }),
        _ => Ok(()),
    }
}

/// The calls of a body.
fn calls_of(alloc: Global, body: &[Instr]) -> Result<List<Call>, NoMemory>
    ensures { IfOk result (λ calls. calls ≡ calls_of_body body.now) }
{
    let mut calls = List::new(alloc);
    for instr in body {
        put_call(&mut calls, instr)?;
    }
    Ok(calls)
}

/// The calls of each block.
fn graph_of(alloc: Global, blocks: &[Block]) -> Result<List<List<Call>>, NoMemory>
    ensures { IfOk result (λ graph. graph ≡ graph_of blocks.now) }
{
    let mut graph = List::new(alloc);
    for block in blocks {
        graph.push(calls_of(alloc, block.body.as_slice())?)?;
    }
    Ok(graph)
}

/// Notes the headings of blocks at which longer chains begin than may run.
#[tactic(auto, using(crate::proofs::Lists::deep_more, crate::proofs::Lists::deep_all))]
fn note_deep(breaks: &mut List<Break>, begins: &[bool], blocks: &[Block]) -> Result<(), NoMemory>
    ensures { OnOk result (breaks.new ≡ breaks.old ++ deep_breaks begins.now (headings_of blocks.now)) }
{
    let mut flags = begins;
    let mut rest = blocks;
    while let [begins_here, ..] = flags {
        let Some(block) = rest.first() else {
            return Ok(());
        };
        note_if(breaks, *begins_here, block.line, Reason::CallTooDeep)?;
        flags = rest_after(flags, 1);
        rest = rest_after(rest, 1);
    }
    Ok(())
}

/// The first heading of a block at which a longer chain begins than may run.
fn first_deep(
    alloc: Global,
    graph: &[List<Call>],
    blocks: &[Block],
) -> Result<Option<Break>, NoMemory>
    ensures { IfOk result (λ first. first ≡ first_of_all (deep_breaks (chains graph.now ACTIVATIONS) (headings_of blocks.now))) }
{
    let begins = chains(alloc, graph, ACTIVATIONS)?;
    let mut breaks = List::new(alloc);
    note_deep(&mut breaks, begins.as_slice(), blocks)?;
    Ok(first_of_all(breaks.as_slice()))
}

/// The first rule of cycles, or else of long chains.
#[tactic(auto, using(crate::proofs::Cycles::chain_laws))]
fn first_of_calls(
    alloc: Global,
    graph: &[List<Call>],
    blocks: &[Block],
) -> Result<Option<Break>, NoMemory>
    ensures { IfOk result (λ first. first
        ≡ first_of_all (or_deep (cycle_breaks graph.now) (deep_breaks (chains graph.now ACTIVATIONS) (headings_of blocks.now)))) }
{
    match first_cycle(alloc, graph)? {
        Some(line) => Ok(Some(Break {
            line,
            rule: Reason::CallCycle,
        })),
        None => first_deep(alloc, graph, blocks),
    }
}

/// The first rule that the chain of the calls of a program breaks, or that of a text without a block.
#[tactic(auto, using(crate::proofs::Cycles::stage_laws))]
pub fn first_in_chain(alloc: Global, program: &Program) -> Result<Option<Break>, NoMemory>
    ensures { IfOk result (λ first. first ≡ first_in_chain program.now.blocks) }
{
    let blocks = program.blocks.as_slice();
    if blocks.is_empty() {
        return Ok(Some(Break {
            line: Line(1),
            rule: Reason::NoBlocks,
        }));
    }
    let graph = graph_of(alloc, blocks)?;
    first_of_calls(alloc, graph.as_slice(), blocks)
}
