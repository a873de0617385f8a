//! Sources in memory, for tests: one that fails at given calls, and one that never fails.
ghost use Rattle.std.specs.Prelude.{◌≡◌, ◌↔◌, ◌≤◌, ◌<◌, [], ◌++◌, length, take, IfOk, OnOk, IsErr, OnErr};
ghost use Rattle.s7_io.specs.Source.{next_count};
ghost use Rattle.s7_io.specs.Faults.{with_call, with_fault, FailsNext};

use crate::plan::FailPlan;
use crate::source::{Failed, Source};
use s7_base::NoMemory;
use std::alloc::Global;
use std::marker::Model;

/// Gives a text in pieces and never fails.
#[derive(Debug, Drop)]
pub struct SureSource {
    bytes: Vec<u8>,
    next: usize,
    piece: usize,
}

impl Model for SureSource {
    ghost use Rattle.std.specs.Prelude.{◌≤◌, length, drop};
    ghost use Rattle.s7_io.specs.Source.{Feed};

    ghost Value = { Feed };

    ghost view = { λ source. record {
      left = drop source.next source.bytes.items;
      piece = source.piece;
    } };

    ghost invariant = { λ source. (source.next ≤ length source.bytes.items) × (1 ≤ source.piece) };
}

impl SureSource {
    /// A source of these bytes, which come at most `piece` at a time.
    pub fn new(alloc: Global, bytes: &[u8], piece: usize) -> Result<SureSource, NoMemory>
        requires { 1 ≤ piece }
        ensures { IfOk result (λ source. source ≡ record { left = bytes.now; piece = piece }) }
    {
        Ok(SureSource {
            bytes: Vec::from_slice(alloc, bytes)?,
            next: 0,
            piece,
        })
    }
}

impl Source for SureSource {
    ghost use Rattle.std.specs.Prelude.{Some};

    ghost left = { λ source. Some source.left };

    ghost faults = { λ _. 0 };

    fn read(&mut self, buf: &mut [u8]) -> Result<usize, Failed>
        ensures sure { result ≡ Ok (next_count self.old.left self.old.piece (length buf.new)) }
        ensures bytes { IfOk result (λ n. self.old.left ≡ take n buf.new ++ self.new.left) }
        ensures end { result ≡ Ok 0 → 0 < length buf.new → self.new.left ≡ [] }
        ensures piece { self.new.piece ≡ self.old.piece }
    {
        let left = &self.bytes[self.next..];
        let count = buf.len().min(self.piece).min(left.len());
        buf[..count].copy_from_slice(&left[..count]);
        self.next += count;
        Ok(count)
    }
}

/// Gives a text in pieces, and fails at the calls whose numbers, from 1, it was given.
#[derive(Debug, Drop)]
pub struct MemSource {
    source: SureSource,
    plan: FailPlan,
}

impl Model for MemSource {
    ghost use Rattle.s7_io.specs.Source.{PlannedFeed};

    ghost Value = { PlannedFeed };

    ghost view = { λ source. record {
      left = source.source.left;
      piece = source.source.piece;
      plan = source.plan;
    } };
}

impl MemSource {
    /// A source of these bytes, which come at most `piece` at a time, and whose calls of the numbers
    /// in `fails` fail.
    pub fn new(
        alloc: Global,
        bytes: &[u8],
        piece: usize,
        fails: &[u32],
    ) -> Result<MemSource, NoMemory>
        requires { 1 ≤ piece }
        ensures { IfOk result (λ source. source ≡ record {
          left = bytes.now;
          piece = piece;
          plan = record { fails = fails.now; calls = 0; faults = 0 };
        }) }
    {
        Ok(MemSource {
            source: SureSource::new(alloc, bytes, piece)?,
            plan: FailPlan::new(alloc, fails)?,
        })
    }
}

impl Source for MemSource {
    ghost use Rattle.std.specs.Prelude.{Some};

    ghost left = { λ source. Some source.left };

    ghost faults = { λ source. source.plan.faults };

    fn read(&mut self, buf: &mut [u8]) -> Result<usize, Failed>
        ensures failed { IsErr result ↔ FailsNext self.old.plan }
        ensures count { IfOk result
            (λ n. n ≡ next_count self.old.left self.old.piece (length buf.new)) }
        ensures bytes { IfOk result (λ n. self.old.left ≡ take n buf.new ++ self.new.left) }
        ensures end { result ≡ Ok 0 → 0 < length buf.new → self.new.left ≡ [] }
        ensures unchanged { OnErr result (self.new.left ≡ self.old.left) }

        ensures ok { OnOk result (self.new.plan ≡ with_call self.old.plan) }
        ensures err { OnErr result (self.new.plan ≡ with_fault (with_call self.old.plan)) }
        ensures later { self.old.plan.faults ≤ self.new.plan.faults }
        ensures piece { self.new.piece ≡ self.old.piece }
    {
        self.plan.begin_call()?;
        self.source.read(buf)
    }
}
