//! Runs: steps within a number of units.
ghost use Rattle.std.specs.Prelude.{◌≡◌, ◌+◌, suc, vec_capacity, true, ℕ};
ghost use Rattle.st_runner.specs.inner.Plan.{AreStarts, IsPlanned};
ghost use Rattle.st_runner.specs.inner.Ready.{IsReady, IsSettled, NeedsUnit, needs_unit};
ghost use Rattle.st_runner.specs.inner.Runnable.{IsRunnable};
ghost use Rattle.st_runner.specs.inner.Waiting.{end_at};
ghost use Rattle.st_runner.specs.inner.View.{state_of};
ghost use Rattle.st_tree.specs.Calls.{calls_to};
ghost use Rattle.st_tree.specs.Meaning.{Calls};

use crate::frame::{At, Frame};
use crate::plan::Plan;
use crate::state::State;
use crate::steps::{advance, spend_call, spend_test};
use st_tree::StProgram;

/// What comes next once all that needs no unit is done. It is inlined, and so is `spend_unit`, so that what comes
/// next is not copied through a reference at each step.
#[inline(always)]
fn settle<'t>(
    tree: &'t StProgram,
    plan: &Plan<'t>,
    at: At<'t>,
    work: &mut Vec<Frame<'t>>,
    state: &mut State,
) -> At<'t>
    requires runnable { IsRunnable tree.now }
    requires ready { IsReady tree.now (vec_capacity work.old) work.old.items at state.old }
    requires planned { IsPlanned plan.now.parts.items work.old.items at }
    ensures meaning { (c : Calls) (u : ℕ) → end_at tree.now.globals c work.new.items result u (state_of state.new)
        ≡ end_at tree.now.globals c work.old.items at.entry u (state_of state.old) }
    ensures settle { IsSettled result }
    ensures ready { IsReady tree.now (vec_capacity work.new) work.new.items result state.new }
    ensures planned { IsPlanned plan.now.parts.items work.new.items result }
{
    match at {
        At::Work => advance(tree, plan, work, state),
        At::Test(test, body, place) => At::Test(test, body, place),
        At::Call(n, actuals) => At::Call(n, actuals),
        At::Over(fault) => At::Over(fault),
    }
}

/// Whether a unit is needed next.
fn needs_unit<'t>(at: At<'t>) -> bool
    ensures { result ≡ needs_unit at.entry }
{
    match at {
        At::Test(_, _, _) => true,
        At::Call(_, _) => true,
        At::Work => false,
        At::Over(_) => false,
    }
}

/// What comes next once a unit is spent.
#[inline(always)]
fn spend_unit<'t>(
    tree: &'t StProgram,
    plan: &Plan<'t>,
    at: At<'t>,
    work: &mut Vec<Frame<'t>>,
    state: &mut State,
) -> At<'t>
    requires runnable { IsRunnable tree.now }
    requires ready { IsReady tree.now (vec_capacity work.old) work.old.items at state.old }
    requires planned { IsPlanned plan.now.parts.items work.old.items at }
    requires needed { needs_unit at ≡ true }
    requires starts { AreStarts plan.now.parts.items plan.now.starts.items tree.now.pous }
    ensures meaning { (u : ℕ)
        → end_at tree.now.globals (calls_to u tree.now) work.new.items result u (state_of state.new)
        ≡ end_at tree.now.globals (calls_to (suc u) tree.now) work.old.items at.entry (suc u) (state_of state.old) }
    ensures ready { IsReady tree.now (vec_capacity work.new) work.new.items result state.new }
    ensures planned { IsPlanned plan.now.parts.items work.new.items result }
{
    match at {
        At::Test(test, body, place) => spend_test(tree, plan, test, body, place, work, state),
        At::Call(n, actuals) => spend_call(tree, plan, n, actuals, work, state),
        At::Work => At::Work,
        At::Over(fault) => At::Over(fault),
    }
}

/// Runs within this many units, up to where one more is needed or the run has ended.
pub fn go<'t>(
    tree: &'t StProgram,
    plan: &Plan<'t>,
    at: &mut At<'t>,
    work: &mut Vec<Frame<'t>>,
    state: &mut State,
    units: u64,
)
    requires runnable { IsRunnable tree.now }
    requires ready { IsReady tree.now (vec_capacity work.old) work.old.items at.old state.old }
    requires planned { IsPlanned plan.now.parts.items work.old.items at.old }
    requires starts { AreStarts plan.now.parts.items plan.now.starts.items tree.now.pous }
    ensures later { (j : ℕ) → end_at tree.now.globals (calls_to j tree.now) work.new.items at.new j (state_of state.new)
        ≡ end_at tree.now.globals (calls_to (units + j) tree.now) work.old.items at.old (units + j)
        (state_of state.old) }
    ensures settle { IsSettled at.new }
    ensures ready { IsReady tree.now (vec_capacity work.new) work.new.items at.new state.new }
    ensures planned { IsPlanned plan.now.parts.items work.new.items at.new }
{
    let mut left = units;
    let mut next = settle(tree, plan, *at, work, state);
    while needs_unit(next) {
        if left == 0 {
            *at = next;
            return;
        }
        left -= 1;
        let begun = spend_unit(tree, plan, next, work, state);
        next = settle(tree, plan, begun, work, state);
    }
    *at = next;
}
