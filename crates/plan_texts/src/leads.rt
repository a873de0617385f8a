//! What leads from a block of a part to another: nothing, CONTINUE, EXIT, or the end of the unit.
ghost use Rattle.std.specs.Prelude.{◌≡◌, ◌<◌, ◌+◌, ◌==◌, ◌&&◌, ◌++◌, ◌∷◌, [], IfOk};
ghost use Rattle.graph_rules.specs.Plain.{AreSettings};
ghost use Rattle.nesting_laws.specs.Plans.{inside};
ghost use Rattle.region_plans.specs.PlanRegion.{end_of, way_to};
ghost use Rattle.segment_plans.specs.Planned.{around_of};
ghost use Rattle.plan_texts.specs.declared.leads.Lead.TheVariants as lead_to;
ghost use Rattle.plan_texts.specs.inner.Leads.{AddsRest, AddsTo, AddsWay, falls_at, falls_to, is_next, is_off, is_onward, rest_region, tail_region};

use dispatch_loops::{push_all, settings};
use s7_base::{List, NoMemory};
use segment_plans::{Around, Blocks, Part, is_behind};
use st_tree::Stmt;
use std::alloc::Global;

/// Where what is written of a part leads last.
#[derive(Clone, Copy)]
pub enum Lead {
    /// To the next block of the part that is reached.
    Onward,

    /// Off the end of the part.
    Off,

    /// Out of the part, by EXIT, CONTINUE or RETURN.
    Out,
}

/// What is written leads to the next block of the part that is reached.
pub fn is_onward(lead: Lead) -> bool
    ensures { result ≡ is_onward lead }
{
    matches!(lead, Lead::Onward)
}

/// What is written leads off the end of the part.
pub fn is_off(lead: Lead) -> bool
    ensures { result ≡ is_off lead }
{
    matches!(lead, Lead::Off)
}

/// What the statements of a part are made of: the blocks of the unit, and the steps of the end word alone.
#[derive(Clone, Copy)]
pub struct Context<'a> {
    pub alloc: Global,
    pub blocks: &'a Blocks,
    pub ending: &'a [Stmt],

    /// The unit ends where the part does.
    pub tail: bool,

    /// How deep arms and bodies of loops may still stand in one another.
    pub levels: u32,
}

/// Writes a statement that leads out of a part.
pub fn push_out(out: &mut List<Stmt>, statement: Stmt) -> Result<Lead, NoMemory>
    ensures { IfOk result (λ lead. (lead ≡ lead_to.Out) × (out.new ≡ out.old ++ statement ∷ [])) }
{
    out.push(statement)?;
    Ok(Lead::Out)
}

/// Writes the end of the unit, if a block is that of the end word alone.
fn push_ending(context: Context<'_>, out: &mut List<Stmt>, to: u32) -> Result<Lead, NoMemory>
    requires { AreSettings context.ending.now }
    ensures { IfOk result (AddsWay context.entry.blocks.now context.entry.ending.now (λ c. end_of c to)
        out.old out.new) }
{
    if !context.blocks.is_end(to) {
        return Ok(Lead::Off);
    }
    push_all(out, settings(context.alloc, context.ending)?)?;
    push_out(out, Stmt::Return)
}

/// A loop that may be left is left for a block, which comes right behind it.
fn leaves(last: u32, left: bool, to: u32) -> bool
    ensures { result ≡ (left && (to == last + 1)) }
{
    left && is_behind(to, last)
}

/// Writes what leads from a loop to a block that is not in the part.
fn push_loop_way(
    context: Context<'_>,
    out: &mut List<Stmt>,
    head: u32,
    last: u32,
    left: bool,
    to: u32,
) -> Result<Lead, NoMemory>
    requires { AreSettings context.ending.now }
    ensures { IfOk result (AddsWay context.entry.blocks.now context.entry.ending.now
        (λ c. way_to c (inside left head last) to) out.old out.new) }
{
    if to == head {
        return push_out(out, Stmt::Continue);
    }
    if leaves(last, left, to) {
        return push_out(out, Stmt::Exit);
    }
    push_ending(context, out, to)
}

/// Writes a way out of a part to a block.
pub fn push_way(
    context: Context<'_>,
    out: &mut List<Stmt>,
    around: Around,
    to: u32,
) -> Result<Lead, NoMemory>
    requires { AreSettings context.ending.now }
    ensures { IfOk result (AddsWay context.entry.blocks.now context.entry.ending.now
        (λ c. way_to c (around_of around) to) out.old out.new) }
{
    match around {
        Around::NoLoop => push_ending(context, out, to),
        Around::Inside(head, last, left) => { push_loop_way(context, out, head, last, left, to) }
    }
}

/// A block of a part is the next one behind another that is reached.
fn is_next(blocks: &Blocks, part: Part, at: u32, to: u32) -> bool
    ensures { result ≡ is_next blocks.now part at to }
{
    at < to && to < part.past && blocks.is_reached(to) && blocks.is_bare(at, to)
}

/// A part leads to a block when it falls off its end, and no block behind another one is reached before that.
pub fn falls_to(context: Context<'_>, part: Part, at: u32, to: u32) -> bool
    requires { at < part.past }
    ensures { result ≡ falls_to context.entry.blocks.now context.entry.tail part at to }
{
    !context.tail && part.follow == to && context.blocks.is_bare(at, part.past)
}

/// Writes what leads from a block of a part to another, and to it alone.
pub fn push_tail(
    context: Context<'_>,
    out: &mut List<Stmt>,
    part: Part,
    at: u32,
    to: u32,
) -> Result<Lead, NoMemory>
    requires low { at < part.past }
    requires set { AreSettings context.ending.now }
    ensures { IfOk result (AddsTo context.entry.blocks.now context.entry.ending.now part at
        (tail_region context.entry.tail part at to) out.old out.new) }
{
    if is_next(context.blocks, part, at, to) {
        return Ok(Lead::Onward);
    }
    if falls_to(context, part, at, to) {
        return Ok(Lead::Off);
    }
    push_way(context, out, part.around, to)
}

/// A part leads to a block when it falls off its end.
fn falls_at(context: Context<'_>, part: Part, to: u32) -> bool
    ensures { result ≡ falls_at context.entry.tail part to }
{
    !context.tail && part.follow == to
}

/// Writes what leads on from the block where all arms of a jump list end.
pub fn push_rest(
    context: Context<'_>,
    out: &mut List<Stmt>,
    part: Part,
    end: u32,
) -> Result<Lead, NoMemory>
    requires { AreSettings context.ending.now }
    ensures { IfOk result (AddsRest context.entry.blocks.now context.entry.ending.now
        (rest_region context.entry.tail part end) out.old out.new) }
{
    if end < part.past {
        return Ok(Lead::Onward);
    }
    if falls_at(context, part, end) {
        return Ok(Lead::Off);
    }
    push_way(context, out, part.around, end)
}
