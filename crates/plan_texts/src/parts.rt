//! Parts of a segment that has a plan, piece by piece: blocks, arms of tests and of jump lists, loops.
ghost use Rattle.std.specs.Prelude.{◌≡◌, ◌<◌, ◌≤◌, ◌+◌, ◌&&◌, ℕ, IfOk, List, Some, length, drop};
ghost use Rattle.st_tree.specs.declared.graph.StNode.{StNode as Node};
ghost use Rattle.graph_rules.specs.Flow.{flow_of};
ghost use Rattle.graph_rules.specs.Plain.{AreSettings};
ghost use Rattle.stl_tree.specs.Flows.{IsSegment};
ghost use Rattle.nesting_laws.specs.Plans.{IsPlanOf, Plan, levels};
ghost use Rattle.unit_regions.specs.MadeCharts.{ending_of};
ghost use Rattle.unit_regions.specs.UnitCharts.{blocks_between};
ghost use Rattle.unit_regions.specs.UnitRegion.{region_by};
ghost use Rattle.dispatch_loops.specs.Charted.{chart_in};
ghost use Rattle.segment_plans.specs.Counts.{is_reached};
ghost use Rattle.segment_plans.specs.Known.{AreKnown};
ghost use Rattle.segment_plans.specs.Planned.{IsWithin};
ghost use Rattle.segment_plans.specs.declared.planning.Piece.TheVariants as piece_of;
ghost use Rattle.plan_texts.specs.PlanTexts.{IsWritten};
ghost use Rattle.plan_texts.specs.inner.Lists.{WritesArms};
ghost use Rattle.plan_texts.specs.inner.Steps.{WritesInner, WritesPart, WritesPiece};

use crate::exits::push_exit;
use crate::leads::{Context, Lead, is_off, is_onward, push_rest};
use crate::lists::{JumpList, label_end, node_arm, push_last_arm};
use crate::nodes::{list_in, pass_nodes, push_steps, test_in};
use dispatch_loops::{choice, endless};
use s7_base::{List, NoMemory};
use segment_plans::{
    Blocks, Part, Piece, after, arm, body, first_arm, list_arm, next_arm, piece_at, whole,
};
use st_tree::{CaseArm, StNode, Stmt};
use std::alloc::Global;
use std::collections::VecDeque;

/// How deep arms and bodies of loops stand in one another at most.
const LEVELS: u32 = 64;

/// Writes a block that no arm follows.
fn push_block(
    context: Context<'_>,
    out: &mut List<Stmt>,
    nodes: &mut VecDeque<StNode>,
    part: Part,
    at: u32,
) -> Result<Lead, NoMemory>
    requires low { at < part.past }
    requires set { AreSettings context.ending.now }
    ensures { IfOk result (WritesPiece context.entry.blocks.now context.entry.ending.now context.entry.tail
        context.entry.levels part at piece_of.One nodes.old.items nodes.new.items out.old out.new) }
{
    let Some(exit) = push_steps(out, nodes)? else {
        return Ok(Lead::Off);
    };
    push_exit(context, out, part, at, exit)
}

/// Writes a block and the arm behind it, which its jump passes over.
#[cycle(text)]
fn push_arm(
    context: Context<'_>,
    out: &mut List<Stmt>,
    nodes: &mut VecDeque<StNode>,
    part: Part,
    at: u32,
    to: u32,
    past: u32,
) -> Result<Lead, NoMemory>
    requires low { at < past }
    requires set { AreSettings context.ending.now }
    ensures { IfOk result (λ lead. past ≤ part.past → WritesPiece context.entry.blocks.now context.entry.ending.now
        context.entry.tail context.entry.levels part at (piece_of.Arm to past) nodes.old.items nodes.new.items
        out.old out.new lead) }
{
    let Some(exit) = push_steps(out, nodes)? else {
        return Ok(Lead::Off);
    };
    let Some(test) = test_in(exit) else {
        return Ok(Lead::Off);
    };
    let other = inner_text(context, nodes, arm(part, past, to), at + 1, false)?;
    out.push(choice(context.alloc, test, List::new(context.alloc), other)?)?;
    Ok(Lead::Onward)
}

/// Two arms: the block after the first one, that to which a jump leads over the second one, and that after the second.
#[derive(Clone, Copy)]
struct TwoArms {
    past: u32,
    over: u32,
    end: u32,
}

/// Writes a block and the two arms behind it.
#[cycle(text)]
fn push_arms(
    context: Context<'_>,
    out: &mut List<Stmt>,
    nodes: &mut VecDeque<StNode>,
    part: Part,
    at: u32,
    arms: TwoArms,
) -> Result<Lead, NoMemory>
    requires low { at < arms.past }
    requires high { arms.past < arms.end }
    requires set { AreSettings context.ending.now }
    ensures { IfOk result (λ lead. arms.end ≤ part.past → WritesPiece context.entry.blocks.now context.entry.ending.now
        context.entry.tail context.entry.levels part at (piece_of.Arms arms.past arms.over arms.end) nodes.old.items
        nodes.new.items out.old out.new lead) }
{
    let Some(exit) = push_steps(out, nodes)? else {
        return Ok(Lead::Off);
    };
    let Some(test) = test_in(exit) else {
        return Ok(Lead::Off);
    };
    let first = first_arm(part, arms.past, arms.over);
    let other = inner_text(context, nodes, first, at + 1, false)?;
    let second = arm(part, arms.end, arms.over);
    let there = inner_text(context, nodes, second, arms.past, false)?;
    out.push(choice(context.alloc, test, there, other)?)?;
    Ok(Lead::Onward)
}

/// A path leads from a loop to the block behind it.
fn is_followed(blocks: &Blocks, part: Part, last: u32, left: bool) -> bool
    requires { last < part.past }
    ensures { result ≡ (left && is_reached blocks.now (last + 1)) }
{
    left && blocks.is_reached(last + 1)
}

/// Writes a loop.
#[cycle(text)]
fn push_loop(
    context: Context<'_>,
    out: &mut List<Stmt>,
    nodes: &mut VecDeque<StNode>,
    part: Part,
    at: u32,
    last: u32,
    left: bool,
) -> Result<Lead, NoMemory>
    requires low { at ≤ last }
    requires high { last < part.past }
    requires set { AreSettings context.ending.now }
    ensures { IfOk result (WritesPiece context.entry.blocks.now context.entry.ending.now context.entry.tail
        context.entry.levels part at (piece_of.Loop last left) nodes.old.items nodes.new.items out.old out.new) }
{
    let turn = inner_text(context, nodes, body(part, at, last, left), at, true)?;
    out.push(endless(turn))?;
    if is_followed(context.blocks, part, last, left) {
        Ok(Lead::Onward)
    } else {
        Ok(Lead::Off)
    }
}

/// The arms of a jump list from one on, each of the blocks before the next one.
#[cycle(text)]
fn list_arms(
    context: Context<'_>,
    nodes: &mut VecDeque<StNode>,
    part: Part,
    list: JumpList<'_>,
    first: u32,
) -> Result<List<CaseArm>, NoMemory>
    requires low { first ≤ list.end }
    requires set { AreSettings context.ending.now }
    ensures { IfOk result (WritesArms context.entry.blocks.now context.entry.ending.now context.entry.levels part
        list.entry.block list.entry.end list.entry.targets.now first nodes.old.items nodes.new.items) }
{
    let mut arms = List::new(context.alloc);
    let mut at = first;
    while at < list.end {
        let past = next_arm(context.blocks, list.block, at, list.end);
        let body = inner_text(context, nodes, list_arm(part, past, list.end), at, false)?;
        arms.push(node_arm(context.alloc, list.targets, at, body)?)?;
        at = past;
    }
    Ok(arms)
}

/// Writes a block with a jump list and its arms. The arm of the label is what stands after ELSE.
#[cycle(text)]
fn push_cases(
    context: Context<'_>,
    out: &mut List<Stmt>,
    nodes: &mut VecDeque<StNode>,
    part: Part,
    at: u32,
    end: u32,
) -> Result<Lead, NoMemory>
    requires low { at < end }
    requires set { AreSettings context.ending.now }
    ensures { IfOk result (λ lead. end ≤ part.past → WritesPiece context.entry.blocks.now context.entry.ending.now
        context.entry.tail context.entry.levels part at (piece_of.Cases end) nodes.old.items nodes.new.items
        out.old out.new lead) }
{
    let Some(exit) = push_steps(out, nodes)? else {
        return Ok(Lead::Off);
    };
    let Some((value, targets)) = list_in(exit) else {
        return Ok(Lead::Off);
    };
    let past = label_end(context.blocks, at, end);
    let other = inner_text(context, nodes, list_arm(part, past, end), at + 1, false)?;
    let list = JumpList {
        block: at,
        end,
        targets: targets.as_slice(),
    };
    let mut arms = list_arms(context, nodes, part, list, past)?;
    push_last_arm(context.alloc, &mut arms, targets.as_slice(), end)?;
    out.push(Stmt::Case(value, arms, other))?;
    push_rest(context, out, part, end)
}

/// Writes a piece of a part.
#[cycle(text)]
fn push_piece(
    context: Context<'_>,
    out: &mut List<Stmt>,
    nodes: &mut VecDeque<StNode>,
    part: Part,
    at: u32,
    piece: Piece,
) -> Result<Lead, NoMemory>
    requires within { IsWithin part at piece }
    requires set { AreSettings context.ending.now }
    ensures { IfOk result (WritesPiece context.entry.blocks.now context.entry.ending.now context.entry.tail
        context.entry.levels part at piece nodes.old.items nodes.new.items out.old out.new) }
{
    match piece {
        Piece::Skip => {
            pass_nodes(nodes, 1);
            Ok(Lead::Onward)
        }
        Piece::One => push_block(context, out, nodes, part, at),
        Piece::Arm(to, past) => push_arm(context, out, nodes, part, at, to, past),
        Piece::Arms(past, over, end) => {
            push_arms(context, out, nodes, part, at, TwoArms { past, over, end })
        }
        Piece::Loop(last, left) => push_loop(context, out, nodes, part, at, last, left),
        Piece::Cases(end) => push_cases(context, out, nodes, part, at, end),
    }
}

/// The statements of a part one level deeper.
#[cycle(text)]
fn inner_text(
    context: Context<'_>,
    nodes: &mut VecDeque<StNode>,
    part: Part,
    first: u32,
    paid: bool,
) -> Result<List<Stmt>, NoMemory>
    requires low { first ≤ part.past }
    requires set { AreSettings context.ending.now }
    ensures { IfOk result (WritesInner context.entry.blocks.now context.entry.ending.now context.entry.levels
        part first paid nodes.old.items nodes.new.items) }
{
    if context.levels == 0 {
        return Ok(List::new(context.alloc));
    }
    let inner = Context {
        tail: false,
        levels: context.levels - 1,
        ..context
    };
    let mut out = List::new(context.alloc);
    push_part(inner, &mut out, nodes, part, first, paid)?;
    Ok(out)
}

/// Writes the blocks of a part from one on. Tells whether what is written may fall off its end.
#[cycle(text)]
fn push_part(
    context: Context<'_>,
    out: &mut List<Stmt>,
    nodes: &mut VecDeque<StNode>,
    part: Part,
    first: u32,
    paid: bool,
) -> Result<bool, NoMemory>
    requires low { first ≤ part.past }
    requires set { AreSettings context.ending.now }
    ensures { IfOk result (WritesPart context.entry.blocks.now context.entry.ending.now context.entry.tail
        context.entry.levels part first paid nodes.old.items nodes.new.items out.old out.new) }
{
    let mut at = first;
    let mut is_paid = paid;
    while at < part.past {
        let Some(piece) = piece_at(context.blocks, part, at, is_paid) else {
            return Ok(true);
        };
        let lead = push_piece(context, out, nodes, part, at, piece)?;
        at = after(part, at, piece);
        is_paid = false;
        if !is_onward(lead) {
            pass_nodes(nodes, part.past - at);
            return Ok(is_off(lead));
        }
    }
    Ok(true)
}

/// Writes a segment that has a plan. Tells whether what is written may fall off its end.
pub fn push_planned(
    alloc: Global,
    blocks: &Blocks,
    ending: &[Stmt],
    out: &mut List<Stmt>,
    nodes: &mut VecDeque<StNode>,
    first: u32,
    past: u32,
) -> Result<bool, NoMemory>
    requires ordered { first ≤ past }
    requires settings { AreSettings ending.now }
    ensures { (all : List Node) (plan : Plan) → length all ≤ 32769 → AreKnown (flow_of all) blocks.now
        → ending.now ≡ ending_of all → past ≤ length all → nodes.old.items ≡ drop first all
        → IsSegment (blocks_between all first past) → IsPlanOf (blocks_between all first past) plan → levels plan ≤ 64
        → (next : ℕ) → IfOk result (IsWritten all past next (region_by (chart_in all blocks.now) first past (Some plan))
        nodes.new.items out.old out.new) }
{
    let context = Context {
        alloc,
        blocks,
        ending,
        tail: !blocks.is_reached(past),
        levels: LEVELS,
    };
    push_part(context, out, nodes, whole(past), first, false)
}
