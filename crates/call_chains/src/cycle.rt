//! The first call that lies on a cycle of calls.
ghost use Rattle.std.specs.Prelude.{◌≡◌, ◌<◌, ◌+◌, true, length, get_or, IfOk};
ghost use Rattle.call_chains.specs.Chain.{IsFirstCycle, Reaches};
ghost use Rattle.call_chains.specs.inner.Cycles.{all_fall, fall, Considers, IsFirstBefore};

use crate::call::Call;
use crate::candidate::{first_candidate, number_of};
use crate::components::components;
use crate::search::reaches;
use s7_base::{Line, List, NoMemory};
use std::alloc::Global;

fn fall(numbers: &[u32], number: u32, calls: &[Call]) -> bool
    ensures { result ≡ fall numbers.now number calls.now }
{
    calls
        .iter()
        .all(|call| number_of(numbers, call.callee as usize) <= number)
}

/// Whether no call makes the number of a unit greater.
fn all_fall(numbers: &[u32], graph: &[List<Call>]) -> bool
    ensures { result ≡ all_fall numbers.now 0 graph.now }
{
    for (unit, calls) in graph.iter().enumerate() {
        if !fall(numbers, number_of(numbers, unit), calls.as_slice()) {
            return false;
        }
    }
    true
}

/// Considers one more call. Only one on a line before is tested.
fn consider(
    alloc: Global,
    graph: &[List<Call>],
    unit: usize,
    call: Call,
    first: Option<Line>,
) -> Result<Option<Line>, NoMemory>
    requires { unit < length graph.now }
    ensures { IfOk result (λ new. Considers (Reaches graph.now call.callee unit) call.line first new) }
{
    if let Some(line) = first {
        if line.0 <= call.line.0 {
            return Ok(first);
        }
    }
    if reaches(alloc, graph, call.callee as usize, unit)? {
        Ok(Some(call.line))
    } else {
        Ok(first)
    }
}

#[tactic(auto, using(crate::proofs::Cycles::next_call, crate::proofs::Cycles::next_unit))]
fn consider_unit(
    alloc: Global,
    graph: &[List<Call>],
    unit: usize,
    calls: &[Call],
    first: Option<Line>,
) -> Result<Option<Line>, NoMemory>
    requires unit { unit < length graph.now }
    requires calls { get_or graph.now unit calls.now ≡ calls.now }
    requires first { IsFirstBefore graph.now unit 0 first }
    ensures { IfOk result (IsFirstBefore graph.now (unit + 1) 0) }
{
    let mut first = first;
    for call in calls {
        first = consider(alloc, graph, unit, *call, first)?;
    }
    Ok(first)
}

/// The first line on which a call lies on a cycle, by a search from each call.
#[tactic(auto, using(crate::proofs::Cycles::none_before, crate::proofs::Cycles::first_of_units))]
fn first_by_searches(alloc: Global, graph: &[List<Call>]) -> Result<Option<Line>, NoMemory>
    ensures { IfOk result (IsFirstCycle graph.now) }
{
    let mut first = None;
    for (unit, calls) in graph.iter().enumerate() {
        first = consider_unit(alloc, graph, unit, calls.as_slice(), first)?;
    }
    Ok(first)
}

/// The first of the calls that make no number less, if it lies on a cycle. It does where the numbers are right, so one
/// search is enough.
#[tactic(auto, using(crate::proofs::Candidates::candidate_laws))]
fn first_by_numbers(
    alloc: Global,
    graph: &[List<Call>],
    numbers: &[u32],
) -> Result<Option<Line>, NoMemory>
    requires { all_fall numbers.now 0 graph.now ≡ true }
    ensures { IfOk result (IsFirstCycle graph.now) }
{
    let Some(first) = first_candidate(numbers, graph) else {
        return Ok(None);
    };
    if reaches(alloc, graph, first.call.callee as usize, first.unit)? {
        Ok(Some(first.call.line))
    } else {
        first_by_searches(alloc, graph)
    }
}

/// The first line on which a call lies on a cycle of calls.
pub fn first_cycle(alloc: Global, graph: &[List<Call>]) -> Result<Option<Line>, NoMemory>
    ensures { IfOk result (IsFirstCycle graph.now) }
{
    let numbers = components(alloc, graph)?;
    if all_fall(numbers.as_slice(), graph) {
        first_by_numbers(alloc, graph, numbers.as_slice())
    } else {
        first_by_searches(alloc, graph)
    }
}
