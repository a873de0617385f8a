//! A sink in memory, for tests.
ghost use Rattle.std.specs.Prelude.{◌≡◌, ◌↔◌, ◌≤◌, ◌<◌, ◌⊎◌, [], ◌++◌, length, take, IfOk, OnOk, IsErr, OnErr};
ghost use Rattle.s7_io.specs.Sink.{accepted_count, IsFullFor};
ghost use Rattle.s7_io.specs.Faults.{with_call, with_fault, FailsNext};

use crate::plan::FailPlan;
use crate::sink::Sink;
use crate::source::Failed;
use s7_base::NoMemory;
use std::alloc::Global;
use std::marker::Model;

/// Takes bytes in pieces until its room is used up, and fails at the calls whose numbers, from 1,
/// it was given.
#[derive(Debug, Drop)]
pub struct MemSink {
    taken: Vec<u8>,
    room: usize,
    piece: usize,
    plan: FailPlan,
}

impl Model for MemSink {
    ghost use Rattle.std.specs.Prelude.{◌≤◌, length, vec_capacity};
    ghost use Rattle.s7_io.specs.Sink.{Intake};

    ghost Value = { Intake };

    ghost view = { λ sink. record {
      taken = sink.taken.items;
      room = sink.room;
      piece = sink.piece;
      plan = sink.plan;
    } };

    ghost invariant = { λ sink.
        (length sink.taken.items ≤ sink.room) × (sink.room ≤ vec_capacity sink.taken) × (1 ≤ sink.piece) };
}

impl MemSink {
    /// A sink that takes at most `room` bytes, at most `piece` at a time, and whose calls of the
    /// numbers in `fails` fail. The room is reserved here, so no write takes memory.
    pub fn new(alloc: Global, room: usize, piece: usize, fails: &[u32]) -> Result<MemSink, NoMemory>
        requires { 1 ≤ piece }
        ensures { IfOk result (λ sink. sink ≡ record {
          taken = [];
          room = room;
          piece = piece;
          plan = record { fails = fails.now; calls = 0; faults = 0 };
        }) }
    {
        Ok(MemSink {
            taken: Vec::with_capacity(alloc, room)?,
            room,
            piece,
            plan: FailPlan::new(alloc, fails)?,
        })
    }

    /// The bytes taken so far.
    pub fn taken(&self) -> &[u8]
        ensures { result.now ≡ self.now.taken }
    {
        self.taken.as_slice()
    }
}

impl Sink for MemSink {
    ghost use Rattle.std.specs.Prelude.{Some};

    ghost taken = { λ sink. Some sink.taken };

    ghost faults = { λ sink. sink.plan.faults };

    fn write(&mut self, piece: &[u8]) -> Result<usize, Failed>
        ensures failed { IsErr result
            ↔ (FailsNext self.old.plan ⊎ IsFullFor self.old (length piece.now)) }
        ensures count { IfOk result (λ n. n ≡ accepted_count self.old (length piece.now)) }
        ensures some { 0 < length piece.now → IfOk result (λ n. 0 < n) }
        ensures bytes { IfOk result (λ n. self.new.taken ≡ self.old.taken ++ take n piece.now) }
        ensures unchanged { OnErr result (self.new.taken ≡ self.old.taken) }

        ensures ok { OnOk result (self.new.plan ≡ with_call self.old.plan) }
        ensures err { OnErr result (self.new.plan ≡ with_fault (with_call self.old.plan)) }
        ensures later { self.old.plan.faults ≤ self.new.plan.faults }
        ensures room { self.new.room ≡ self.old.room }
        ensures piece { self.new.piece ≡ self.old.piece }
    {
        self.plan.begin_call()?;
        let room = self.room - self.taken.len();
        if room == 0 && !piece.is_empty() {
            return Err(self.plan.fail());
        }
        let count = piece.len().min(self.piece).min(room);
        self.taken.extend_from_slice(&piece[..count]).unwrap();
        Ok(count)
    }
}
