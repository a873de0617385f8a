//! Steps: what needs no unit, and what takes one.
ghost use Rattle.std.specs.Prelude.{◌≡◌, ◌+◌, ◌<◌, ◌≤◌, ◌∷◌, ◌++◌, [], max, length, vec_capacity, ℕ, Some, None};
ghost use Rattle.st_runner.specs.inner.Measures.{next_tall, reach, sizes, tall, units, weight, work_weight, stack_costs};
ghost use Rattle.st_runner.specs.inner.Costs.{Costs, body_most, most};
ghost use Rattle.st_runner.specs.inner.Plan.{ArePlanned, AreStarts, IsPlanned, Stands, body_parts, case_part, if_parts, inside_case, parts_of};
ghost use Rattle.st_runner.specs.inner.Ready.{Done, IsReady, IsSettled, Spent, Stepped, next_of};
ghost use Rattle.st_runner.specs.inner.Runnable.{IsRunnable, AreGlobals};
ghost use Rattle.st_runner.specs.inner.Waiting.{end_at, ending, with_rest};
ghost use Rattle.st_runner.specs.inner.View.{IsRunning, IsSound, SameShape, state_of};
ghost use Rattle.st_runner.specs.declared.frame.At.TheVariants.{Call, Test, Work};
ghost use Rattle.st_runner.specs.declared.frame.Frame.TheVariants.{Rest};
ghost use Rattle.st_tree.specs.Meaning.{Calls, meaning};
ghost use Rattle.st_tree.specs.declared.program.Stmt.TheVariants.{Case, If};

use crate::evaluate::case_body;
use crate::frame::{At, Frame};
use crate::leaving::{continue_loop, exit_loop, return_unit};
use crate::plan::{Part, Plan, behind, further};
use crate::state::State;
use s7_base::Fault;
use st_tree::{Arm, CaseArm, Expr, StProgram, Stmt, Var};

/// How deep statements may nest in a unit.
pub const MOST_NESTING: usize = 200;

/// How many frames wait at most for the statements of one unit: two for each level of nesting, one for the
/// unit and one for its body.
pub const UNIT_FRAMES: usize = 2 * MOST_NESTING + 2;

/// What comes next where something was done, or had a fault.
fn next<'t>(done: Result<(), Fault>) -> At<'t>
    ensures { result ≡ next_of done }
{
    match done {
        Ok(()) => At::Work,
        Err(fault) => At::Over(Some(fault)),
    }
}

/// Lets the statements wait that an IF chooses.
fn choose<'t>(
    tree: &StProgram,
    plan: &[Part<'t>],
    at: usize,
    arms: &'t [Arm],
    other: &'t [Stmt],
    work: &mut Vec<Frame<'t>>,
    state: &State,
) -> At<'t>
    requires running { IsRunning state.now }
    requires globals { AreGlobals tree.now.globals }
    requires room { length work.old.items < vec_capacity work.old }
    requires frames { ArePlanned plan.now work.old.items }
    requires planned { Stands plan.now at (if_parts arms.now other.now) }
    ensures done { Done tree.now (If arms.now other.now) work.old.items work.new.items result
        (state_of state.now) (state_of state.now) }
    ensures planned { IsPlanned plan.now work.new.items result }
    ensures capacity { vec_capacity work.new ≡ vec_capacity work.old }
{
    match state.if_body(
        tree.globals.as_slice(),
        plan,
        further(plan, at, 1),
        arms,
        other,
    ) {
        Ok((body, place)) => {
            work.push_reserved(Frame::Rest(body, place));
            At::Work
        }
        Err(fault) => At::Over(Some(fault)),
    }
}

/// Lets the statements wait that a CASE chooses.
fn choose_labelled<'t>(
    tree: &StProgram,
    plan: &[Part<'t>],
    at: usize,
    e: &Expr,
    arms: &'t [CaseArm],
    other: &'t [Stmt],
    work: &mut Vec<Frame<'t>>,
    state: &State,
) -> At<'t>
    requires running { IsRunning state.now }
    requires globals { AreGlobals tree.now.globals }
    requires room { length work.old.items < vec_capacity work.old }
    requires frames { ArePlanned plan.now work.old.items }
    requires planned { Stands plan.now at (case_part arms.now other.now ∷ inside_case arms.now other.now) }
    ensures done { Done tree.now (Case e.now arms.now other.now) work.old.items work.new.items result
        (state_of state.now) (state_of state.now) }
    ensures planned { IsPlanned plan.now work.new.items result }
    ensures capacity { vec_capacity work.new ≡ vec_capacity work.old }
{
    match state.value(tree.globals.as_slice(), e) {
        Ok(v) => {
            let (body, place) = case_body(plan, at, v, arms, other);
            work.push_reserved(Frame::Rest(body, place));
            At::Work
        }
        Err(fault) => At::Over(Some(fault)),
    }
}

/// Does a statement up to where it needs a unit. It is inlined, and so are `step`, `advance` and
/// `spend_test`, so that what comes next is not copied.
#[inline(always)]
pub fn statement<'t>(
    tree: &'t StProgram,
    plan: &[Part<'t>],
    at: usize,
    stmt: &'t Stmt,
    work: &mut Vec<Frame<'t>>,
    state: &mut State,
) -> At<'t>
    requires running { IsRunning state.old }
    requires globals { AreGlobals tree.now.globals }
    requires room { length work.old.items + most (stack_costs tree.now) stmt.now ≤ vec_capacity work.old }
    requires frames { ArePlanned plan.now work.old.items }
    requires planned { Stands plan.now at (parts_of stmt.now) }
    ensures done { Done tree.now stmt.now work.old.items work.new.items result
        (state_of state.old) (state_of state.new) }
    ensures planned { IsPlanned plan.now work.new.items result }
    ensures sound { (l f : ℕ) → IsSound l f state.old → IsSound l f state.new }
    ensures same { SameShape state.old state.new }
    ensures capacity { vec_capacity work.new ≡ vec_capacity work.old }
{
    let globals = tree.globals.as_slice();
    match stmt {
        Stmt::Assign(var, e) => next(state.assign(globals, var, e)),
        Stmt::AreaWrite(width, pointer, e) => {
            next(state.area_assign(globals, *width, pointer.get(), e.get()))
        }
        Stmt::Invoke(n, actuals) => At::Call(*n, actuals.as_slice()),
        Stmt::If(arms, other) => {
            choose(
                tree,
                plan,
                at,
                arms.as_slice(),
                other.as_slice(),
                work,
                state,
            )
        }
        Stmt::Case(e, arms, other) => choose_labelled(
            tree,
            plan,
            at,
            e,
            arms.as_slice(),
            other.as_slice(),
            work,
            state,
        ),
        Stmt::While(test, body) => { At::Test(test, body.as_slice(), further(plan, at, 1)) }
        Stmt::Exit => {
            exit_loop(work);
            At::Work
        }
        Stmt::Continue => {
            continue_loop(work);
            At::Work
        }
        Stmt::Return => {
            return_unit(work);
            At::Work
        }
    }
}

/// Lets the rest of a list wait. Nothing waits after the last statement, so that its end takes no step.
fn push_rest<'t>(rest: &'t [Stmt], at: usize, work: &mut Vec<Frame<'t>>)
    requires { length work.old.items < vec_capacity work.old }
    ensures items { work.new.items ≡ with_rest work.old.items rest.entry at }
    ensures capacity { vec_capacity work.new ≡ vec_capacity work.old }
{
    if !rest.is_empty() {
        work.push_reserved(Frame::Rest(rest, at));
    }
}

/// Does the first of some statements. Those behind it wait.
#[inline(always)]
fn first_statement<'t>(
    tree: &'t StProgram,
    plan: &[Part<'t>],
    body: &'t [Stmt],
    at: usize,
    work: &mut Vec<Frame<'t>>,
    state: &mut State,
) -> At<'t>
    requires globals { AreGlobals tree.now.globals }
    requires ready { IsReady tree.now (vec_capacity work.old) (work.old.items ++ Rest body at ∷ []) Work state.old }
    requires frames { ArePlanned plan.now work.old.items }
    requires planned { Stands plan.now at (body_parts body.now) }
    ensures stepped { Stepped tree.now (work.old.items ++ Rest body.entry at ∷ []) work.new.items result state.old state.new }
    ensures planned { IsPlanned plan.now work.new.items result }
    ensures capacity { vec_capacity work.new ≡ vec_capacity work.old }
{
    let Some((stmt, rest)) = body.split_first() else {
        return At::Work;
    };
    push_rest(rest, behind(plan, at, stmt), work);
    statement(tree, plan, at, stmt, work, state)
}

/// Does the next statements that wait: the assignments before any other, and that one. Or ends the frame on top.
#[inline(always)]
fn step<'t>(
    tree: &'t StProgram,
    plan: &[Part<'t>],
    work: &mut Vec<Frame<'t>>,
    state: &mut State,
) -> At<'t>
    requires globals { AreGlobals tree.now.globals }
    requires ready { IsReady tree.now (vec_capacity work.old) work.old.items Work state.old }
    requires planned { ArePlanned plan.now work.old.items }
    ensures stepped { Stepped tree.now work.old.items work.new.items result state.old state.new }
    ensures planned { IsPlanned plan.now work.new.items result }
    ensures capacity { vec_capacity work.new ≡ vec_capacity work.old }
{
    match work.pop() {
        None => At::Over(None),
        Some(Frame::Rest(body, at)) => match state.assign_first(tree.globals.as_slice(), body) {
            Ok(rest) => first_statement(tree, plan, rest, at, work, state),
            Err(fault) => At::Over(Some(fault)),
        },
        Some(Frame::Again(test, body, at)) => At::Test(test, body, at),
        Some(Frame::Unit) => {
            state.leave();
            At::Work
        }
    }
}

/// Does what needs no unit, up to where a unit is needed or the run has ended.
#[inline(always)]
pub fn advance<'t>(
    tree: &'t StProgram,
    plan: &Plan<'t>,
    work: &mut Vec<Frame<'t>>,
    state: &mut State,
) -> At<'t>
    requires globals { AreGlobals tree.now.globals }
    requires ready { IsReady tree.now (vec_capacity work.old) work.old.items Work state.old }
    requires planned { ArePlanned plan.now.parts.items work.old.items }
    ensures meaning { (c : Calls) (u : ℕ) → end_at tree.now.globals c work.new.items result u (state_of state.new)
        ≡ end_at tree.now.globals c work.old.items Work u (state_of state.old) }
    ensures settle { IsSettled result }
    ensures ready { IsReady tree.now (vec_capacity work.new) work.new.items result state.new }
    ensures planned { IsPlanned plan.now.parts.items work.new.items result }
    ensures capacity { vec_capacity work.new ≡ vec_capacity work.old }
{
    let mut at = At::Work;
    while let At::Work = at {
        at = step(tree, plan.parts.as_slice(), work, state);
    }
    at
}

/// Spends a unit on the test of a loop.
#[inline(always)]
pub fn spend_test<'t>(
    tree: &'t StProgram,
    plan: &Plan<'t>,
    test: &'t Expr,
    body: &'t [Stmt],
    at: usize,
    work: &mut Vec<Frame<'t>>,
    state: &mut State,
) -> At<'t>
    requires globals { AreGlobals tree.now.globals }
    requires ready { IsReady tree.now (vec_capacity work.old) work.old.items (Test test body at) state.old }
    requires planned { IsPlanned plan.now.parts.items work.old.items (Test test body at) }
    ensures spend_unit { Spent tree.now (vec_capacity work.old) work.old.items work.new.items
        (Test test.entry body.entry at) result state.old state.new }
    ensures planned { IsPlanned plan.now.parts.items work.new.items result }
    ensures capacity { vec_capacity work.new ≡ vec_capacity work.old }
{
    match state.is_true(tree.globals.as_slice(), test) {
        Ok(true) => {
            work.push_reserved(Frame::Again(test, body, at));
            work.push_reserved(Frame::Rest(body, at));
            At::Work
        }
        Ok(false) => At::Work,
        Err(fault) => At::Over(Some(fault)),
    }
}

/// Spends a unit on a call.
pub fn spend_call<'t>(
    tree: &'t StProgram,
    plan: &Plan<'t>,
    n: u32,
    actuals: &'t [Var],
    work: &mut Vec<Frame<'t>>,
    state: &mut State,
) -> At<'t>
    requires runnable { IsRunnable tree.now }
    requires ready { IsReady tree.now (vec_capacity work.old) work.old.items (Call n actuals) state.old }
    requires planned { ArePlanned plan.now.parts.items work.old.items }
    requires starts { AreStarts plan.now.parts.items plan.now.starts.items tree.now.pous }
    ensures spend_unit { Spent tree.now (vec_capacity work.old) work.old.items work.new.items
        (Call n actuals.entry) result state.old state.new }
    ensures planned { IsPlanned plan.now.parts.items work.new.items result }
    ensures capacity { vec_capacity work.new ≡ vec_capacity work.old }
{
    let unit = &tree.pous.as_slice()[n as usize];
    match state.enter(tree.globals.as_slice(), unit, actuals) {
        Ok(()) => {
            work.push_reserved(Frame::Unit);
            work.push_reserved(Frame::Rest(unit.body.as_slice(), plan.starts[n as usize]));
            At::Work
        }
        Err(fault) => At::Over(Some(fault)),
    }
}
