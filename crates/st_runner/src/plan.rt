//! The plan of a text: where a run finds the tables of the CASE statements that it comes to.
ghost use Rattle.std.specs.Prelude.{◌≡◌, ◌+◌, ◌≤◌, ◌<◌, ◌∷◌, ◌++◌, length, IfOk, OnOk, ℕ};
ghost use Rattle.st_runner.specs.declared.plan.Part.TheVariants.{Choice, Inside};
ghost use Rattle.st_runner.specs.inner.Plan.{AreStarts, Closes, Stands, arms_parts, body_parts, case_part, each_parts, with_head, if_parts, inside_at, inside_case, all_parts, parts_of, starts_from};

use crate::table::Table;
use s7_base::{List, NoMemory};
use st_tree::{Arm, CaseArm, Pou, Stmt};
use std::alloc::Global;

/// What is kept for an IF, a CASE, a WHILE or an arm of an IF. The parts of what is inside of it come next.
#[derive(Drop)]
pub enum Part<'t> {
    /// How many parts are inside.
    Inside(usize),

    /// How many parts are inside a CASE, the table of its labels, and for each of its arms how many parts come before.
    /// The parts of what follows ELSE come first.
    Choice(usize, Table<'t>, List<usize>),
}

/// The parts of a text, and where those of each unit start.
#[derive(Drop)]
pub struct Plan<'t> {
    pub parts: Vec<Part<'t>>,
    pub starts: Vec<usize>,
}

/// Says how many parts are inside of one, now that they stand behind it.
fn close<'t>(parts: &mut Vec<Part<'t>>, at: usize)
    requires { at < length parts.old.items }
    ensures { Closes at (λ inside. Inside (length inside)) parts.old.items parts.new.items }
{
    parts[at] = Part::Inside(parts.len() - at - 1);
}

/// Says how many parts are inside of a CASE, with its table and the places of its arms.
fn close_case<'t>(parts: &mut Vec<Part<'t>>, at: usize, table: Table<'t>, starts: List<usize>)
    requires { at < length parts.old.items }
    ensures { Closes at (λ inside. Choice (length inside) table.entry starts) parts.old.items parts.new.items }
{
    parts[at] = Part::Choice(parts.len() - at - 1, table, starts);
}

/// Puts the parts of what has these statements inside.
#[cycle(plan)]
fn put_with_head<'t>(
    alloc: Global,
    parts: &mut Vec<Part<'t>>,
    body: &'t [Stmt],
) -> Result<(), NoMemory>
    ensures { OnOk result (parts.new.items ≡ parts.old.items ++ with_head (body_parts body.now)) }
{
    let at = parts.len();
    parts.push(Part::Inside(0))?;
    put_body(alloc, parts, body)?;
    close(parts, at);
    Ok(())
}

/// Puts the parts of the arms of an IF.
#[cycle(plan)]
fn put_arms<'t>(alloc: Global, parts: &mut Vec<Part<'t>>, arms: &'t [Arm]) -> Result<(), NoMemory>
    ensures { OnOk result (parts.new.items ≡ parts.old.items ++ arms_parts arms.now) }
{
    for arm in arms {
        put_with_head(alloc, parts, arm.body.as_slice())?;
    }
    Ok(())
}

/// Puts the parts of the arms of a CASE, and says where those of each start behind a place.
#[cycle(plan)]
fn put_case_arms<'t>(
    alloc: Global,
    parts: &mut Vec<Part<'t>>,
    from: usize,
    arms: &'t [CaseArm],
) -> Result<List<usize>, NoMemory>
    requires { from ≤ length parts.old.items }
    ensures parts { OnOk result (parts.new.items ≡ parts.old.items ++ all_parts (each_parts arms.now)) }
    ensures starts { IfOk result (λ starts. (n : ℕ) → length parts.old.items ≡ from + n
        → starts ≡ starts_from n (each_parts arms.now)) }
{
    let mut starts = List::new(alloc);
    for arm in arms {
        starts.push(parts.len() - from)?;
        put_body(alloc, parts, arm.body.as_slice())?;
    }
    Ok(starts)
}

/// Puts the parts of a statement.
#[cycle(plan)]
fn put_statement<'t>(
    alloc: Global,
    parts: &mut Vec<Part<'t>>,
    stmt: &'t Stmt,
) -> Result<(), NoMemory>
    ensures { OnOk result (parts.new.items ≡ parts.old.items ++ parts_of stmt.now) }
{
    match stmt {
        Stmt::If(arms, other) => {
            let at = parts.len();
            parts.push(Part::Inside(0))?;
            put_arms(alloc, parts, arms.as_slice())?;
            put_body(alloc, parts, other.as_slice())?;
            close(parts, at);
            Ok(())
        }
        Stmt::Case(_, arms, other) => {
            let at = parts.len();
            parts.push(Part::Inside(0))?;
            put_body(alloc, parts, other.as_slice())?;
            let starts = put_case_arms(alloc, parts, at + 1, arms.as_slice())?;
            let table = Table::new(alloc, arms.as_slice())?;
            close_case(parts, at, table, starts);
            Ok(())
        }
        Stmt::While(_, body) => put_with_head(alloc, parts, body.as_slice()),
        Stmt::Assign(_, _) => Ok(()),
        Stmt::AreaWrite(_, _, _) => Ok(()),
        Stmt::Invoke(_, _) => Ok(()),
        Stmt::Exit => Ok(()),
        Stmt::Continue => Ok(()),
        Stmt::Return => Ok(()),
    }
}

/// Puts the parts of a list of statements.
#[cycle(plan)]
fn put_body<'t>(alloc: Global, parts: &mut Vec<Part<'t>>, body: &'t [Stmt]) -> Result<(), NoMemory>
    ensures { OnOk result (parts.new.items ≡ parts.old.items ++ body_parts body.now) }
{
    for stmt in body {
        put_statement(alloc, parts, stmt)?;
    }
    Ok(())
}

/// The plan of some units.
pub fn plan_of<'t>(alloc: Global, units: &'t [Pou]) -> Result<Plan<'t>, NoMemory>
    ensures { IfOk result (λ plan. AreStarts plan.parts.items plan.starts.items units.now) }
{
    let mut parts = Vec::new(alloc);
    let mut starts = Vec::with_capacity(alloc, units.len())?;
    for unit in units {
        starts.push_reserved(parts.len());
        put_body(alloc, &mut parts, unit.body.as_slice())?;
    }
    Ok(Plan { parts, starts })
}

/// The place so many parts further on.
#[inline(always)]
pub fn further<'t>(plan: &[Part<'t>], at: usize, parts: usize) -> usize
    requires { at + parts ≤ length plan.now }
    ensures { result ≡ at + parts }
{
    at + parts
}

/// The place behind a part and those inside of it.
pub fn behind_part<'t>(plan: &[Part<'t>], at: usize) -> usize
    requires there { at < length plan.now }
    requires within { at + (1 + inside_at plan.now at) ≤ length plan.now }
    ensures { result ≡ at + (1 + inside_at plan.now at) }
{
    let inside = match &plan[at] {
        Part::Inside(inside) => *inside,
        Part::Choice(inside, _, _) => *inside,
    };
    at + 1 + inside
}

/// The place behind the parts of a statement.
#[inline(always)]
pub fn behind<'t>(plan: &[Part<'t>], at: usize, stmt: &Stmt) -> usize
    requires { Stands plan.now at (parts_of stmt.now) }
    ensures { result ≡ at + length (parts_of stmt.now) }
{
    match stmt {
        Stmt::If(_, _) => behind_part(plan, at),
        Stmt::Case(_, _, _) => behind_part(plan, at),
        Stmt::While(_, _) => behind_part(plan, at),
        Stmt::Assign(_, _) => at,
        Stmt::AreaWrite(_, _, _) => at,
        Stmt::Invoke(_, _) => at,
        Stmt::Exit => at,
        Stmt::Continue => at,
        Stmt::Return => at,
    }
}
