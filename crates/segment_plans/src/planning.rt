//! Whether a segment can be written by its blocks from left to right, and how.
//!
//! At each block there is at most one way to go on. So the first block that has none shows that there is no plan.
ghost use Rattle.std.specs.Prelude.{◌≡◌, ◌+◌, ◌==◌, ◌<◌, ◌≤◌, Bool, IfSome};
ghost use Rattle.std.specs.Bool.{Decides};
ghost use Rattle.stl_tree.specs.Flows.{IsSegment, Segment};
ghost use Rattle.segment_plans.specs.Known.{AreKnown};
ghost use Rattle.segment_plans.specs.Planned.{AnswersPiece, HasArms, HasInner, HasPlan, IsPartOf, IsPiece, IsWithin, after, arm, body, first_arm, list_arm};
ghost use Rattle.segment_plans.specs.declared.planning.Piece.TheVariants as piece_of;
ghost use Rattle.segment_plans.specs.inner.Pieces.{arms_by, branch, choice, falls_off, goes_on, inner_end, is_endless, is_flat, is_inner_end, jumps_out, loop_end, loop_if, may_end, may_fall, may_lead, one_if, piece_within, second_end, second_if, second_to, takes_rest};

use crate::arms::{are_arms, arms_end, is_way_out, last_target, next_arm};
use crate::blocks::Blocks;
use flow_graph::Exit;

/// The loop around a part: none, or one by its head, its last block, and whether it may be left for the block behind it.
#[derive(Clone, Copy, Debug, PartialEq, Eq)]
pub enum Around {
    NoLoop,
    Inside(u32, u32, bool),
}

/// What a part is.
#[derive(Clone, Copy, Debug, PartialEq, Eq)]
pub enum Kind {
    /// Blocks in a row.
    Blocks,

    /// An arm of a jump list, which may be left from anywhere for the end of all arms.
    ListArm,
}

/// Where a part of a segment ends: the block after its last one, the block that follows it, the loop around it, and
/// what it is.
#[derive(Clone, Copy, Debug, PartialEq, Eq)]
pub struct Part {
    pub past: u32,
    pub follow: u32,
    pub around: Around,
    pub kind: Kind,
}

/// What is written at a block.
#[derive(Clone, Copy, Debug, PartialEq, Eq)]
pub enum Piece {
    /// Nothing, since no path reaches the block.
    Skip,

    /// The block.
    One,

    /// The block, whose jump leads to the first number, and an arm of the blocks before the second one.
    Arm(u32, u32),

    /// The block, and two arms: of the blocks before the first number, from the last of which a jump leads to the second
    /// one; and of those from the first number on and before the third.
    Arms(u32, u32, u32),

    /// A loop up to this block, and whether it may be left for the block behind it.
    Loop(u32, bool),

    /// The block, and the arms of its jump list, which end before this one. The first begins behind the block, and each
    /// goes up to the next one (`next_arm`).
    Cases(u32),
}

/// A block comes right behind another.
pub fn is_behind(number: u32, last: u32) -> bool
    ensures { result ≡ (number == last + 1) }
{
    u64::from(number) == u64::from(last) + 1
}

/// The arm of a part up to a block, which another follows.
pub fn arm(part: Part, past: u32, follow: u32) -> Part
    ensures { result ≡ arm part past follow }
{
    Part {
        past,
        follow,
        ..part
    }
}

/// The first of two arms, from the end of which a jump leads over the second.
pub fn first_arm(part: Part, past: u32, follow: u32) -> Part
    ensures { result ≡ first_arm part past follow }
{
    Part {
        past,
        follow,
        around: part.around,
        kind: Kind::Blocks,
    }
}

/// An arm of a jump list, up to a block; the end of all arms follows.
pub fn list_arm(part: Part, past: u32, end: u32) -> Part
    ensures { result ≡ list_arm part past end }
{
    Part {
        past,
        follow: end,
        around: part.around,
        kind: Kind::ListArm,
    }
}

/// The body of a loop in a part.
pub fn body(part: Part, head: u32, last: u32, left: bool) -> Part
    requires { last < part.past }
    ensures { result ≡ body head last left }
{
    Part {
        past: last + 1,
        follow: head,
        around: Around::Inside(head, last, left),
        kind: Kind::Blocks,
    }
}

/// An arm or a loop may end before a block inside a part, or where the part does.
fn is_inner_end(part: Part, past: u32) -> bool
    ensures { result ≡ is_inner_end part past }
{
    past <= part.past && (past != part.past || part.follow == part.past)
}

/// A jump to the end of all arms of a jump list takes the rest of an arm.
fn takes_rest(part: Part, to: u32) -> bool
    ensures { result ≡ takes_rest part to }
{
    matches!(part.kind, Kind::ListArm) && to == part.follow && part.past < to
}

/// Where an arm in a part ends, over which a jump leads to a block.
fn inner_end(part: Part, to: u32) -> Option<u32>
    ensures { result ≡ inner_end part to }
{
    if is_inner_end(part, to) {
        Some(to)
    } else if takes_rest(part, to) {
        Some(part.past)
    } else {
        None
    }
}

/// The end of the part follows a block.
fn falls_off(blocks: &Blocks, part: Part, at: u32, to: u32, alone: bool) -> bool
    requires { at < part.past }
    ensures { result ≡ falls_off blocks.now part at to alone }
{
    to == part.follow && blocks.is_bare(at, part.past) && (part.follow == part.past || alone)
}

/// The next block of the part that is reached follows a block.
fn goes_on(blocks: &Blocks, part: Part, at: u32, to: u32) -> bool
    ensures { result ≡ goes_on blocks.now part at to }
{
    at < to && to < part.past && blocks.is_bare(at, to)
}

/// A jump leads out of the loop around, begins its next turn, or ends the unit.
fn jumps_out(blocks: &Blocks, part: Part, to: u32) -> bool
    ensures { result ≡ jumps_out blocks.now part to }
{
    is_way_out(part.around, to) || blocks.is_end(to)
}

/// A block of a part may lead to another. `alone` says that it leads only there, by a jump.
fn may_lead(blocks: &Blocks, part: Part, at: u32, to: u32, alone: bool) -> bool
    requires { at < part.past }
    ensures { result ≡ may_lead blocks.now part at to alone }
{
    goes_on(blocks, part, at, to)
        || jumps_out(blocks, part, to)
        || falls_off(blocks, part, at, to, alone)
}

/// Where a second arm ends, if it has blocks, and to where a jump leads over it.
fn second_if(part: Part, past: u32, to: u32) -> Option<(u32, u32)>
    ensures { result ≡ second_if part past to (inner_end part to) }
{
    match inner_end(part, to) {
        Some(end) if past < end => Some((to, end)),
        _ => None,
    }
}

fn second_to(blocks: &Blocks, part: Part, past: u32, to: u32) -> Option<(u32, u32)>
    ensures { result ≡ second_to blocks.now part past to }
{
    if jumps_out(blocks, part, to) {
        None
    } else {
        second_if(part, past, to)
    }
}

/// Where the last block of the arm before this one jumps, over a second arm, and where that ends.
fn second_end(blocks: &Blocks, part: Part, past: u32) -> Option<(u32, u32)>
    ensures { result ≡ second_end blocks.now part past }
{
    let source = past.saturating_sub(1);
    if !blocks.is_reached(source) {
        return None;
    }
    match blocks.exits.as_slice().get(source as usize) {
        Some(Exit::Jump(to)) => second_to(blocks, part, past, *to),
        _ => None,
    }
}

fn one_if(fits: bool) -> Option<Piece>
    ensures { result ≡ one_if fits }
{
    if fits { Some(Piece::One) } else { None }
}

/// An arm or two, where the jump of a block leads over the first.
fn arms_by(to: u32, past: u32, second: Option<(u32, u32)>) -> Piece
    ensures { result ≡ arms_by to past second }
{
    match second {
        Some((over, end)) => Piece::Arms(past, over, end),
        None => Piece::Arm(to, past),
    }
}

/// The block after one follows it, where that is in the part, or the part goes on there.
fn may_fall(part: Part, at: u32) -> bool
    requires { at < part.past }
    ensures { result ≡ may_fall part at }
{
    at + 1 != part.past || part.follow == part.past
}

/// What is written at a block whose conditional jump leads to another.
fn branch(blocks: &Blocks, part: Part, at: u32, to: u32) -> Option<Piece>
    requires { at < part.past }
    ensures { result ≡ branch blocks.now part at to }
{
    if jumps_out(blocks, part, to) {
        return one_if(may_lead(blocks, part, at, at + 1, false));
    }
    let past = inner_end(part, to)?;
    if at < past && may_fall(part, at) {
        Some(arms_by(to, past, second_end(blocks, part, past)))
    } else {
        None
    }
}

/// The arms of a list may end before a block.
fn may_end(blocks: &Blocks, part: Part, end: u32) -> bool
    ensures { result ≡ may_end blocks.now part end }
{
    end <= part.past
        && (end != part.past || part.follow == part.past || jumps_out(blocks, part, end))
}

/// What is written at a block with a jump list.
fn choice(blocks: &Blocks, part: Part, at: u32) -> Option<Piece>
    ensures { result ≡ choice blocks.now part at }
{
    if last_target(blocks, at) > part.past || !are_arms(blocks, at) {
        return None;
    }
    let end = arms_end(blocks, part.around, at);
    if may_end(blocks, part, end) {
        Some(Piece::Cases(end))
    } else {
        None
    }
}

/// What is written at a block that begins no loop that is still to be opened.
fn piece_within(blocks: &Blocks, part: Part, at: u32) -> Option<Piece>
    requires { at < part.past }
    ensures { result ≡ piece_within blocks.now part at }
{
    match blocks.exits.as_slice().get(at as usize) {
        Some(Exit::Fall) | Some(Exit::EndIf) => {
            one_if(may_lead(blocks, part, at, at + 1, false))
        }
        Some(Exit::Jump(to)) => one_if(may_lead(blocks, part, at, *to, true)),
        Some(Exit::Branch(to)) => branch(blocks, part, at, *to),
        Some(Exit::End) => Some(Piece::One),
        Some(Exit::Table(_, _)) => choice(blocks, part, at),
        None => None,
    }
}

/// A loop at the end of an arm of a jump list has another arm behind it.
fn is_endless(part: Part, last: u32) -> bool
    ensures { result ≡ is_endless part last }
{
    is_behind(part.past, last) && part.past < part.follow
}

/// A loop up to a block of a part.
fn loop_end(part: Part, last: u32) -> Option<Piece>
    requires { last < part.past }
    ensures { result ≡ loop_end part last }
{
    if is_inner_end(part, last + 1) {
        Some(Piece::Loop(last, true))
    } else if is_endless(part, last) {
        Some(Piece::Loop(last, false))
    } else {
        None
    }
}

/// The loop that begins at a block and ends with another, if it lies in the part.
fn loop_if(part: Part, at: u32, last: u32) -> Option<Piece>
    ensures { result ≡ loop_if part at last }
{
    if at <= last && last < part.past {
        loop_end(part, last)
    } else {
        None
    }
}

/// What is written at a block of a part, if something can be. `paid` says that it is the head of the loop around.
pub fn piece_at(blocks: &Blocks, part: Part, at: u32, paid: bool) -> Option<Piece>
    requires { at < part.past }
    ensures fits { (g : Segment) → IsSegment g → AreKnown g.flow blocks.now → IsPartOf g part at
        → AnswersPiece g blocks.now part paid at result }
    ensures within { IfSome result (IsWithin part at) }
{
    if !blocks.is_reached(at) {
        return Some(Piece::Skip);
    }
    if paid {
        return piece_within(blocks, part, at);
    }
    match blocks.last_of(at) {
        Some(last) => loop_if(part, at, last),
        None => piece_within(blocks, part, at),
    }
}

/// The block after a piece of a part.
pub fn after(part: Part, at: u32, piece: Piece) -> u32
    requires { IsWithin part at piece }
    ensures { result ≡ after at piece }
{
    match piece {
        Piece::Skip | Piece::One => at + 1,
        Piece::Arm(_, past) | Piece::Arms(_, _, past) => past,
        Piece::Loop(last, _) => last + 1,
        Piece::Cases(end) => end,
    }
}

/// A piece has no blocks one level deeper.
fn is_flat(piece: Piece) -> bool
    ensures { result ≡ is_flat piece }
{
    matches!(piece, Piece::Skip | Piece::One)
}

/// Whether the blocks of a part from one on have a plan with at most so many levels.
#[tactic(auto, using(crate::proofs::PlanSteps::tracks_first, crate::proofs::ArmSteps::arms_first))]
#[cycle(plan)]
pub fn splits(blocks: &Blocks, part: Part, first: u32, paid: bool, left: u32) -> bool
    requires { first ≤ part.past }
    ensures { (g : Segment) → IsSegment g → AreKnown g.flow blocks.now → IsPartOf g part first
        → Decides result (HasPlan g left part paid first) }
{
    let mut at = first;
    let mut is_paid = paid;
    while at < part.past {
        let Some(piece) = piece_at(blocks, part, at, is_paid) else {
            return false;
        };
        if !inner_splits(blocks, part, at, piece, left) {
            return false;
        }
        at = after(part, at, piece);
        is_paid = false;
    }
    true
}

/// Whether the arms of the jump list of a block, up to their end, have plans with at most so many levels.
#[cycle(plan)]
fn arms_split(blocks: &Blocks, part: Part, list: u32, end: u32, left: u32) -> bool
    requires { list < end }
    ensures { (g : Segment) → IsSegment g → AreKnown g.flow blocks.now → IsPartOf g part list → (paid : Bool)
        → IsPiece g blocks.now part paid list (piece_of.Cases end)
        → Decides result (HasArms g left part list end (list + 1)) }
{
    let mut at = list + 1;
    while at < end {
        let past = next_arm(blocks, list, at, end);
        if !splits(blocks, list_arm(part, past, end), at, false, left) {
            return false;
        }
        at = past;
    }
    true
}

/// Whether the blocks one level deeper in a piece have plans.
#[cycle(plan)]
fn inner_splits(blocks: &Blocks, part: Part, at: u32, piece: Piece, left: u32) -> bool
    requires { IsWithin part at piece }
    ensures { (g : Segment) → IsSegment g → AreKnown g.flow blocks.now → IsPartOf g part at → (paid : Bool)
        → IsPiece g blocks.now part paid at piece → Decides result (HasInner g left part at piece) }
{
    if left == 0 {
        return is_flat(piece);
    }
    match piece {
        Piece::Skip | Piece::One => true,
        Piece::Arm(to, past) => splits(blocks, arm(part, past, to), at + 1, false, left - 1),
        Piece::Arms(to, over, past) => {
            splits(blocks, first_arm(part, to, over), at + 1, false, left - 1)
                && splits(blocks, arm(part, past, over), to, false, left - 1)
        }
        Piece::Loop(last, leaves) => {
            splits(blocks, body(part, at, last, leaves), at, true, left - 1)
        }
        Piece::Cases(end) => arms_split(blocks, part, at, end, left - 1),
    }
}
