//! Blocks that are written as they are, by their exits.
ghost use Rattle.std.specs.Prelude.{◌≡◌, ◌<◌, ℕ, true, false, IfOk};
ghost use Rattle.st_tree.specs.declared.graph.StExit.TheVariants as exit_by;
ghost use Rattle.graph_rules.specs.Plain.{AreSettings};
ghost use Rattle.plan_texts.specs.inner.Leads.{AddsTo, bare_region, ends_last, falls_to};

use crate::leads::{Context, Lead, falls_to, push_out, push_tail, push_way};
use dispatch_loops::{choice, one_statement};
use s7_base::{List, NoMemory};
use segment_plans::Part;
use st_tree::{Expr, StExit, Stmt};

/// Writes a test that leads off the end of a part, and what leads from the block where the test is not met.
fn push_last_branch(
    context: Context<'_>,
    out: &mut List<Stmt>,
    part: Part,
    at: u32,
    test: Expr,
) -> Result<Lead, NoMemory>
    requires low { at < part.past }
    requires set { AreSettings context.ending.now }
    ensures { IfOk result (λ lead. (to : ℕ) → falls_to context.entry.blocks.now context.entry.tail part at to ≡ true
        → AddsTo context.entry.blocks.now context.entry.ending.now part at
        (bare_region context.entry.tail part at (exit_by.Branch test to)) out.old out.new lead) }
{
    let mut other = List::new(context.alloc);
    push_tail(context, &mut other, part, at, at + 1)?;
    out.push(choice(context.alloc, test, List::new(context.alloc), other)?)?;
    Ok(Lead::Off)
}

/// Writes a test that leads out of a part, and what leads from the block where the test is not met.
fn push_way_out(
    context: Context<'_>,
    out: &mut List<Stmt>,
    part: Part,
    at: u32,
    test: Expr,
    to: u32,
) -> Result<Lead, NoMemory>
    requires low { at < part.past }
    requires set { AreSettings context.ending.now }
    ensures { IfOk result (λ lead. falls_to context.entry.blocks.now context.entry.tail part at to ≡ false
        → AddsTo context.entry.blocks.now context.entry.ending.now part at
        (bare_region context.entry.tail part at (exit_by.Branch test to)) out.old out.new lead) }
{
    let mut body = List::new(context.alloc);
    push_way(context, &mut body, part.around, to)?;
    out.push(choice(context.alloc, test, body, List::new(context.alloc))?)?;
    push_tail(context, out, part, at, at + 1)
}

/// Writes the exit of a block with a test that leads to another.
fn push_branch(
    context: Context<'_>,
    out: &mut List<Stmt>,
    part: Part,
    at: u32,
    test: Expr,
    to: u32,
) -> Result<Lead, NoMemory>
    requires low { at < part.past }
    requires set { AreSettings context.ending.now }
    ensures { IfOk result (AddsTo context.entry.blocks.now context.entry.ending.now part at
        (bare_region context.entry.tail part at (exit_by.Branch test to)) out.old out.new) }
{
    if falls_to(context, part, at, to) {
        push_last_branch(context, out, part, at, test)
    } else {
        push_way_out(context, out, part, at, test, to)
    }
}

/// Writes the exit of a block with a test that ends the unit.
fn push_end_if(
    context: Context<'_>,
    out: &mut List<Stmt>,
    part: Part,
    at: u32,
    test: Expr,
) -> Result<Lead, NoMemory>
    requires low { at < part.past }
    requires set { AreSettings context.ending.now }
    ensures { IfOk result (AddsTo context.entry.blocks.now context.entry.ending.now part at
        (bare_region context.entry.tail part at (exit_by.EndIf test)) out.old out.new) }
{
    let body = one_statement(context.alloc, Stmt::Return)?;
    out.push(choice(context.alloc, test, body, List::new(context.alloc))?)?;
    push_tail(context, out, part, at, at + 1)
}

/// The unit ends with a part, and no block behind one is reached in the part.
fn ends_last(context: Context<'_>, part: Part, at: u32) -> bool
    requires { at < part.past }
    ensures { result ≡ ends_last context.entry.blocks.now context.entry.tail part at }
{
    context.tail && context.blocks.is_bare(at, part.past)
}

/// Writes the exit of a block that ends the unit.
fn push_end(
    context: Context<'_>,
    out: &mut List<Stmt>,
    part: Part,
    at: u32,
) -> Result<Lead, NoMemory>
    requires low { at < part.past }
    ensures { IfOk result (AddsTo context.entry.blocks.now context.entry.ending.now part at
        (bare_region context.entry.tail part at exit_by.End) out.old out.new) }
{
    if ends_last(context, part, at) {
        Ok(Lead::Off)
    } else {
        push_out(out, Stmt::Return)
    }
}

/// Writes the exit of a block that is written as it is. A table is not written so.
pub fn push_exit(
    context: Context<'_>,
    out: &mut List<Stmt>,
    part: Part,
    at: u32,
    exit: StExit,
) -> Result<Lead, NoMemory>
    requires low { at < part.past }
    requires set { AreSettings context.ending.now }
    ensures { IfOk result (AddsTo context.entry.blocks.now context.entry.ending.now part at
        (bare_region context.entry.tail part at exit) out.old out.new) }
{
    match exit {
        StExit::Fall => push_tail(context, out, part, at, at + 1),
        StExit::Jump(to) => push_tail(context, out, part, at, to),
        StExit::Branch(test, to) => push_branch(context, out, part, at, test, to),
        StExit::EndIf(test) => push_end_if(context, out, part, at, test),
        StExit::End => push_end(context, out, part, at),
        StExit::Table(_, _, _) => Ok(Lead::Off),
    }
}
