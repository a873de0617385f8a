//! The calls at which a source or a sink in memory fails.
ghost use Rattle.std.specs.Prelude.{◌≡◌, ◌↔◌, ◌≤◌, IfOk, OnOk, IsErr, OnErr};
ghost use Rattle.s7_io.specs.Faults.{with_call, with_fault, FailsNext};

use crate::source::Failed;
use s7_base::NoMemory;
use std::alloc::Global;
use std::marker::Model;

/// Counts calls from 1, and fails those whose numbers are in a list.
#[derive(Debug, Drop)]
pub(crate) struct FailPlan {
    fails: Vec<u32>,
    calls: u64,
    faults: u64,
}

impl Model for FailPlan {
    ghost use Rattle.s7_io.specs.Faults.{Plan};

    ghost Value = { Plan };

    ghost view = { λ plan. record {
      fails = plan.fails.items;
      calls = plan.calls;
      faults = plan.faults;
    } };
}

impl FailPlan {
    /// No call counted yet, and no fault.
    pub(crate) fn new(alloc: Global, fails: &[u32]) -> Result<FailPlan, NoMemory>
        ensures { IfOk result (λ plan. plan ≡ record { fails = fails.now; calls = 0; faults = 0 }) }
    {
        Ok(FailPlan {
            fails: Vec::from_slice(alloc, fails)?,
            calls: 0,
            faults: 0,
        })
    }

    /// Counts a call, which fails where its number is listed.
    pub(crate) fn begin_call(&mut self) -> Result<(), Failed>
        ensures listed { IsErr result ↔ FailsNext self.old }
        ensures ok { OnOk result (self.new ≡ with_call self.old) }
        ensures err { OnErr result (self.new ≡ with_fault (with_call self.old)) }
        ensures later { self.old.faults ≤ self.new.faults }
    {
        self.calls = self.calls.saturating_add(1);
        let call = self.calls;
        if self.fails.iter().any(|number| u64::from(*number) == call) {
            return Err(self.fail());
        }
        Ok(())
    }

    /// Counts a fault, and returns the answer for it.
    pub(crate) fn fail(&mut self) -> Failed
        ensures fault { self.new ≡ with_fault self.old }
        ensures later { self.old.faults ≤ self.new.faults }
    {
        self.faults = self.faults.saturating_add(1);
        Failed
    }
}
