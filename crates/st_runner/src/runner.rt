//! The runner.
ghost use Rattle.std.specs.Prelude.{◌≡◌, ◌+◌, ℕ};
ghost use Rattle.memory_areas.specs.Areas.{IsMemoryOf};
ghost use Rattle.st_tree.specs.Proper.{Proper};
ghost use Rattle.st_runner.specs.Standing.{IsNew, Shows, StaysOver, end_within};
ghost use Rattle.st_runner.specs.inner.Waiting.{outcome_of};

use crate::calling::{called_name, fits_unit, unit_called};
use crate::frame::{At, Frame};
use crate::plan::{Plan, plan_of};
use crate::reserve::{frames, start};
use crate::runs::go;
use crate::state::State;
use memory_areas::{Call, Memory};
use s7_base::{NoMemory, Outcome};
use st_tree::StProgram;
use std::alloc::Global;
use std::marker::Model;

/// Why there is no runner.
#[derive(Clone, Copy, Debug, PartialEq, Eq)]
pub enum RunnerRefusal {
    /// The call does not fit the tree.
    BadCall,

    /// Memory ran out.
    NoMemory,
}

/// A run of a unit of a tree, which can be continued in any portions of units.
#[derive(Drop)]
pub struct Runner<'t> {
    tree: &'t StProgram,
    plan: Plan<'t>,
    work: Vec<Frame<'t>>,
    at: At<'t>,
    state: State,
}

impl<'t> Model for Runner<'t> {
    ghost use Rattle.std.specs.Coded.{codes};
    ghost use Rattle.std.specs.Prelude.{map, vec_capacity};
    ghost use Rattle.st_runner.specs.inner.Plain.{coming, pending};
    ghost use Rattle.st_runner.specs.inner.Plan.{AreStarts, IsPlanned};
    ghost use Rattle.st_runner.specs.inner.Ready.{IsReady};
    ghost use Rattle.st_runner.specs.inner.Runnable.{IsRunnable};
    ghost use Rattle.st_runner.specs.Standing.{Standing};
    ghost use Rattle.st_runner.specs.inner.View.{activation_view};
    ghost use Rattle.st_tree.specs.contracts.expr.Expr as expr;
    ghost use Rattle.st_tree.specs.contracts.program.Stmt as stmt;

    ghost Value = { Standing };

    ghost coded = { Prim.hlevel (codes, stmt.the_row.coded, expr.the_row.coded) };

    ghost view = { λ r. record {
      tree = r.tree.now;
      waits = map pending r.work.items;
      next = coming r.at;
      memory = r.state.memory;
      numbers = r.state.registers.numbers;
      activations = map activation_view r.state.activations.items;
    } };

    ghost invariant = { λ r. IsRunnable r.tree.now
        × IsReady r.tree.now (vec_capacity r.work) r.work.items r.at r.state
        × IsPlanned r.plan.parts.items r.work.items r.at
        × AreStarts r.plan.parts.items r.plan.starts.items r.tree.now.pous };
}

/// The outcome of a run that does this next.
fn outcome_of<'t>(at: At<'t>) -> Outcome
    ensures { result ≡ outcome_of at.entry }
{
    match at {
        At::Work => Outcome::Going,
        At::Test(_, _, _) => Outcome::Going,
        At::Call(_, _) => Outcome::Going,
        At::Over(fault) => Outcome::Ended(fault),
    }
}

impl From<NoMemory> for RunnerRefusal {
    ghost use Rattle.std.specs.Prelude.{◌≡◌};
    ghost use Rattle.st_runner.specs.declared.runner.RunnerRefusal.TheVariants as refusal;

    ghost from_gives = { λ _ made. made ≡ refusal.NoMemory };

    fn from(_error: NoMemory) -> RunnerRefusal {
        RunnerRefusal::NoMemory
    }
}

impl<'t> Runner<'t> {
    /// A runner at the start of a call, its registers and local data zero.
    pub fn new(
        alloc: Global,
        tree: &'t StProgram,
        memory: Memory,
        call: &Call,
    ) -> Result<Runner<'t>, RunnerRefusal>
        requires proper { Proper tree.now }
        requires memory { IsMemoryOf tree.now.dbs memory.areas }
        ensures { IsNew tree.now call.now memory.areas result }
    {
        let name = called_name(alloc, call.block)?;
        let units = tree.pous.as_slice();
        let Some(n) = unit_called(call.block, name.as_slice(), units) else {
            return Err(RunnerRefusal::BadCall);
        };
        let unit = &units[n];
        if !fits_unit(&memory, unit, call) {
            return Err(RunnerRefusal::BadCall);
        }
        let plan = plan_of(alloc, units)?;
        let work = frames(alloc, unit.body.as_slice(), plan.starts[n])?;
        let state = start(alloc, units, unit, memory, call)?;
        Ok(Runner {
            tree,
            plan,
            work,
            at: At::Work,
            state,
        })
    }

    /// Takes at most `k` further units. A run that has ended stays as it is.
    pub fn run(&mut self, k: u64) -> Outcome
        ensures later { (j : ℕ) → end_within self.new j ≡ end_within self.old (k + j) }
        ensures outcome { Shows result (end_within self.old k) self.new.memory.areas }
        ensures over { StaysOver result self.new }
    {
        go(
            self.tree,
            &self.plan,
            &mut self.at,
            &mut self.work,
            &mut self.state,
            k,
        );
        outcome_of(self.at)
    }

    /// The memory at this point of the run.
    pub fn memory(&self) -> &Memory
        ensures { result.now ≡ self.now.memory }
    {
        &self.state.memory
    }
}
