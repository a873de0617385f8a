//! Numbers of units, equal for two units that lie on a cycle of calls with one another.
//!
//! Only the running time of `first_cycle` depends on them: it tests whether the numbers fall along calls, and
//! searches from the first call that makes no number less. So no clause says what they are.

use crate::call::Call;
use s7_base::{List, NoMemory};
use std::alloc::Global;

fn read(numbers: &[u32], unit: usize) -> u32 {
    numbers.get(unit).copied().unwrap_or(0)
}

fn set_number(numbers: &mut Vec<u32>, unit: usize, number: u32) {
    if unit < numbers.len() {
        numbers[unit] = number;
    }
}

/// A walk along the calls, depth first.
#[derive(Drop)]
struct Walk {
    /// The units in the order in which they are first met, from 1.
    order: Vec<u32>,

    /// The least order of an open unit that is met from each unit.
    low: Vec<u32>,

    /// The number of each unit that is closed, from 1; 0 for the others.
    numbers: Vec<u32>,
    open: Vec<usize>,

    /// The units on the way from where the walk began, with how many of their calls are done.
    path: Vec<(usize, usize)>,
    met: u32,
    closed: u32,
}

impl Walk {
    fn meet(&mut self, unit: usize) -> Result<(), NoMemory> {
        self.met = self.met.saturating_add(1);
        set_number(&mut self.order, unit, self.met);
        set_number(&mut self.low, unit, self.met);
        self.open.push(unit)?;
        self.path.push((unit, 0))?;
        Ok(())
    }

    fn lower(&mut self, unit: usize, order: u32) {
        let low = read(self.low.as_slice(), unit).min(order);
        set_number(&mut self.low, unit, low);
    }

    fn follow(&mut self, unit: usize, done: usize, callee: usize) -> Result<(), NoMemory> {
        self.path.push((unit, done.saturating_add(1)))?;
        let order = read(self.order.as_slice(), callee);
        if order == 0 {
            return self.meet(callee);
        }
        if read(self.numbers.as_slice(), callee) == 0 {
            self.lower(unit, order);
        }
        Ok(())
    }

    /// Gives the open units from the last to this one a number.
    fn number(&mut self, unit: usize) {
        self.closed = self.closed.saturating_add(1);
        while let Some(last) = self.open.pop() {
            set_number(&mut self.numbers, last, self.closed);
            if last == unit {
                return;
            }
        }
    }

    fn close(&mut self, unit: usize) {
        let low = read(self.low.as_slice(), unit);
        if low == read(self.order.as_slice(), unit) {
            self.number(unit);
        }
        if let Some(caller) = self.path.last().copied() {
            self.lower(caller.0, low);
        }
    }

    fn step(&mut self, graph: &[List<Call>], unit: usize, done: usize) -> Result<(), NoMemory> {
        if let Some(calls) = graph.get(unit) {
            if let Some(call) = calls.as_slice().get(done) {
                return self.follow(unit, done, call.callee as usize);
            }
        }
        self.close(unit);
        Ok(())
    }

    /// Walks from a unit that is not met yet.
    fn walk(&mut self, graph: &[List<Call>], unit: usize) -> Result<(), NoMemory> {
        if read(self.order.as_slice(), unit) != 0 {
            return Ok(());
        }
        self.meet(unit)?;
        for _ in 0..u64::MAX {
            let Some(last) = self.path.pop() else {
                return Ok(());
            };
            self.step(graph, last.0, last.1)?;
        }
        Ok(())
    }
}

fn zeros(alloc: Global, size: usize) -> Result<Vec<u32>, NoMemory> {
    let mut numbers = Vec::new(alloc);
    numbers.resize(size, 0)?;
    Ok(numbers)
}

/// A number for each unit; no call leads to a greater one.
pub fn components(alloc: Global, graph: &[List<Call>]) -> Result<Vec<u32>, NoMemory> {
    let mut walk = Walk {
        order: zeros(alloc, graph.len())?,
        low: zeros(alloc, graph.len())?,
        numbers: zeros(alloc, graph.len())?,
        open: Vec::new(alloc),
        path: Vec::new(alloc),
        met: 0,
        closed: 0,
    };
    for unit in 0..graph.len() {
        walk.walk(graph, unit)?;
    }
    Ok(walk.numbers)
}
