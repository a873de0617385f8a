//! A segment as a loop over the selector, each turn of which does the node that the selector names.
ghost use Rattle.std.specs.Prelude.{◌≡◌, ℕ, ◌∷◌, [], ◌++◌, ◌-◌, ◌<◌, ◌≤◌, List, drop, length, IfOk, OnOk};
ghost use Rattle.st_tree.specs.declared.graph.StNode.{StNode};
ghost use Rattle.graph_rules.specs.Flow.{flow_of};
ghost use Rattle.region_laws.specs.NextLocal.{arm_with_label};
ghost use Rattle.region_laws.specs.Regions.{choice, text_of};
ghost use Rattle.unit_regions.specs.UnitRegion.{entry_arms, lead_out, lead_to, place_if};
ghost use Rattle.segment_plans.specs.Counts.{is_reached};
ghost use Rattle.segment_plans.specs.Known.{AreKnown};
ghost use Rattle.dispatch_loops.specs.Dispatched.{IsWrittenInTurns};
ghost use Rattle.dispatch_loops.specs.inner.Arms.{arm_text, arms_from, next_arm};

use crate::statements::{choice, endless, one_statement, select};
use s7_base::{List, NoMemory};
use segment_plans::Blocks;
use st_tree::{CaseArm, Expr, StExit, StNode, Stmt, Var};
use std::alloc::Global;
use std::collections::VecDeque;

/// A segment that is written so: its first block, and the block after its last one.
#[derive(Clone, Copy, Debug, PartialEq, Eq)]
pub struct Turns {
    /// The local that selects a block.
    pub selector: u32,

    pub first: u32,
    pub past: u32,
}

/// What leads to a block: the segment is left for the block after it, or the block is selected.
fn lead(turns: Turns, to: u32) -> Stmt
    ensures { result ∷ [] ≡ text_of turns.selector (lead_to turns.past to) }
{
    if to == turns.past {
        Stmt::Exit
    } else {
        select(turns.selector, to)
    }
}

/// What ends the unit, which goes on after the segment or ends with it.
fn ending(turns: Turns, goes_on: bool) -> Stmt
    ensures { result ∷ [] ≡ text_of turns.selector (lead_out (place_if goes_on turns.past)) }
{
    if goes_on { Stmt::Return } else { Stmt::Exit }
}

/// One statement where a test is TRUE, else another.
fn either(alloc: Global, test: Expr, first: Stmt, second: Stmt) -> Result<Stmt, NoMemory>
    ensures { IfOk result (λ statement. statement ≡ choice test (first ∷ []) (second ∷ [])) }
{
    let other = one_statement(alloc, second)?;
    let body = one_statement(alloc, first)?;
    choice(alloc, test, body, other)
}

/// The arm of a CASE for a number.
fn arm_for(alloc: Global, number: u32, body: List<Stmt>) -> Result<CaseArm, NoMemory>
    ensures { IfOk result (λ arm. arm ≡ arm_with_label number body) }
{
    let labels = vec![in alloc; i64::from(number)]?;
    Ok(CaseArm {
        labels: List::from_vec(labels),
        body,
    })
}

/// An arm for each entry of a table.
fn table_arms(alloc: Global, turns: Turns, targets: List<u32>) -> Result<List<CaseArm>, NoMemory>
    ensures { IfOk result (λ arms. arms ≡ entry_arms turns.selector turns.past 0 targets) }
{
    let mut arms = List::new(alloc);
    let mut number: u32 = 0;
    for to in targets.into_vec() {
        let body = one_statement(alloc, lead(turns, to))?;
        arms.push(arm_for(alloc, number, body)?)?;
        number = number.checked_add(1).ok_or(NoMemory)?;
    }
    Ok(arms)
}

/// Makes the exit of a node.
fn push_exit(
    alloc: Global,
    body: &mut List<Stmt>,
    turns: Turns,
    goes_on: bool,
    at: u32,
    exit: StExit,
) -> Result<(), NoMemory>
    requires { at < turns.past }
    ensures { OnOk result (body.new ≡ arm_text turns goes_on at body.old exit) }
{
    match exit {
        StExit::Fall => body.push(lead(turns, at + 1)),
        StExit::Jump(to) => body.push(lead(turns, to)),
        StExit::Branch(test, to) => {
            body.push(either(alloc, test, lead(turns, to), lead(turns, at + 1))?)
        }
        StExit::EndIf(test) => {
            let ended = one_statement(alloc, Stmt::Return)?;
            body.push(choice(alloc, test, ended, List::new(alloc))?)?;
            body.push(lead(turns, at + 1))
        }
        StExit::Table(value, targets, last) => {
            let arms = table_arms(alloc, turns, targets)?;
            let other = one_statement(alloc, lead(turns, last))?;
            body.push(Stmt::Case(value, arms, other))
        }
        StExit::End => body.push(ending(turns, goes_on)),
    }
}

/// The arm of a node.
fn node_arm(
    alloc: Global,
    turns: Turns,
    goes_on: bool,
    at: u32,
    node: StNode,
) -> Result<CaseArm, NoMemory>
    requires { at < turns.past }
    ensures { IfOk result (λ arm. arm ≡ arm_with_label at (arm_text turns goes_on at node.steps node.exit)) }
{
    let StNode { steps, exit, .. } = node;
    let mut body = steps;
    push_exit(alloc, &mut body, turns, goes_on, at, exit)?;
    arm_for(alloc, at, body)
}

/// Makes the arm of the next node.
fn push_arm(
    alloc: Global,
    arms: &mut List<CaseArm>,
    nodes: &mut VecDeque<StNode>,
    turns: Turns,
    goes_on: bool,
    at: u32,
) -> Result<(), NoMemory>
    requires { at < turns.past }
    ensures arms { OnOk result (arms.new ≡ arms.old ++ next_arm turns goes_on at nodes.old.items) }
    ensures left { OnOk result (nodes.new.items ≡ drop 1 nodes.old.items) }
{
    if let Some(node) = nodes.pop_front() {
        arms.push(node_arm(alloc, turns, goes_on, at, node)?)?;
    }
    Ok(())
}

/// An arm for each node of the segment that is reached.
fn node_arms(
    alloc: Global,
    blocks: &Blocks,
    nodes: &mut VecDeque<StNode>,
    turns: Turns,
    goes_on: bool,
) -> Result<List<CaseArm>, NoMemory>
    requires { turns.first < turns.past }
    ensures arms { IfOk result (λ arms. arms ≡
        arms_from (is_reached blocks.now) turns goes_on turns.first (turns.past - turns.first) nodes.old.items) }
    ensures left { OnOk result (nodes.new.items ≡ drop (turns.past - turns.first) nodes.old.items) }
{
    let mut arms = List::new(alloc);
    for at in turns.first..turns.past {
        if blocks.is_reached(at) {
            push_arm(alloc, &mut arms, nodes, turns, goes_on, at)?;
        } else {
            drop(nodes.pop_front());
        }
    }
    Ok(arms)
}

/// Selects the first block of a segment, and makes the loop over its blocks.
pub fn push_turns(
    alloc: Global,
    blocks: &Blocks,
    out: &mut List<Stmt>,
    nodes: &mut VecDeque<StNode>,
    turns: Turns,
) -> Result<(), NoMemory>
    requires { turns.first < turns.past }
    ensures { (all : List StNode) → AreKnown (flow_of all) blocks.now → length all ≤ 32769 → turns.past ≤ length all
        → nodes.old.items ≡ drop turns.first all
        → OnOk result (IsWrittenInTurns all blocks.now turns nodes.new.items out.old out.new) }
{
    let goes_on = blocks.is_reached(turns.past);
    let arms = node_arms(alloc, blocks, nodes, turns, goes_on)?;
    let selected = Expr::Read(Var::Local(turns.selector));
    let choice = Stmt::Case(selected, arms, List::new(alloc));
    let body = one_statement(alloc, choice)?;
    out.push(select(turns.selector, turns.first))?;
    out.push(endless(body))
}
