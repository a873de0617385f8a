//! A search for the units that are reached from one.
ghost use Rattle.std.specs.Prelude.{◌≡◌, ◌+◌, ◌<◌, ◌≤◌, [], ◌∷◌, false, length, replicate, IfOk, OnOk};
ghost use Rattle.call_chains.specs.Chain.{Reaches};
ghost use Rattle.call_chains.specs.Search.{AreFollowed, IsClosedButFor, Decides, IsClosed, IsSound, has, marks_after, count_unmarked, work_after};

use crate::call::Call;
use s7_base::{List, NoMemory};
use std::alloc::Global;

/// The units that are seen so far, and those whose calls wait to be looked at.
#[derive(Drop)]
pub struct Search {
    /// The unit where the search begins.
    pub from: usize,

    /// Which units a call was found to.
    pub seen: Vec<bool>,

    /// The units whose calls are still to be looked at.
    pub work: Vec<usize>,
}

impl Search {
    fn has(&self, unit: usize) -> bool
        ensures { result ≡ has self.now.from self.now.seen.items unit }
    {
        unit == self.from || self.seen.get(unit).copied().unwrap_or(true)
    }

    /// Notes that a unit is reached.
    fn reach(&mut self, unit: usize) -> Result<(), NoMemory>
        ensures from { OnOk result (self.new.from ≡ self.old.from) }
        ensures seen { OnOk result (self.new.seen.items ≡ marks_after self.old.from unit self.old.seen.items) }
        ensures work { OnOk result (self.new.work.items
            ≡ work_after self.old.from unit self.old.seen.items self.old.work.items) }
    {
        if self.has(unit) {
            return Ok(());
        }
        self.work.push(unit)?;
        if unit < self.seen.len() {
            self.seen[unit] = true;
        }
        Ok(())
    }

    /// Notes the units that a unit calls.
    fn visit(&mut self, graph: &[List<Call>], unit: usize) -> Result<(), NoMemory>
        requires sound { IsSound graph.now self.old.from self.old.seen.items self.old.work.items }
        requires reached { Reaches graph.now self.old.from unit }
        requires followed { AreFollowed graph.now self.old.from self.old.seen.items self.old.work.items unit 0 }
        ensures from { OnOk result (self.new.from ≡ self.old.from) }
        ensures sound { OnOk result (IsSound graph.now self.new.from self.new.seen.items self.new.work.items) }
        ensures followed { OnOk result (IsClosedButFor graph.now self.new.from self.new.seen.items self.new.work.items) }
        ensures left { OnOk result (count_unmarked self.new.seen.items + length self.new.work.items
            ≤ count_unmarked self.old.seen.items + length self.old.work.items) }
    {
        let Some(calls) = graph.get(unit) else {
            return Ok(());
        };
        for call in calls.as_slice() {
            self.reach(call.callee as usize)?;
        }
        Ok(())
    }

    /// Looks at the calls of all units that wait, and of those that come to wait.
    fn run(&mut self, graph: &[List<Call>]) -> Result<(), NoMemory>
        requires sound { IsSound graph.now self.old.from self.old.seen.items self.old.work.items }
        requires followed { IsClosedButFor graph.now self.old.from self.old.seen.items self.old.work.items }
        ensures from { OnOk result (self.new.from ≡ self.old.from) }
        ensures sound { OnOk result (IsSound graph.now self.new.from self.new.seen.items self.new.work.items) }
        ensures closed { OnOk result (IsClosed graph.now self.new.from self.new.seen.items) }
    {
        while let Some(unit) = self.work.pop() {
            self.visit(graph, unit)?;
        }
        Ok(())
    }

    fn new(alloc: Global, size: usize, from: usize) -> Result<Search, NoMemory>
        ensures from { IfOk result (λ search. search.from ≡ from) }
        ensures seen { IfOk result (λ search. search.seen.items ≡ replicate size false) }
        ensures work { IfOk result (λ search. search.work.items ≡ from ∷ []) }
    {
        let mut seen = Vec::new(alloc);
        seen.resize(size, false)?;
        let mut work = Vec::new(alloc);
        work.push(from)?;
        Ok(Search { from, seen, work })
    }
}

/// Whether a unit is reached from another by calls.
pub fn reaches(
    alloc: Global,
    graph: &[List<Call>],
    from: usize,
    to: usize,
) -> Result<bool, NoMemory>
    requires { to < length graph.now }
    ensures { IfOk result (Decides (Reaches graph.now from to)) }
{
    let mut search = Search::new(alloc, graph.len(), from)?;
    search.run(graph)?;
    Ok(search.has(to))
}
