//! The call that may be the first one on a cycle.
ghost use Rattle.std.specs.Prelude.{◌≡◌, None, get_or};
ghost use Rattle.std.specs.List.{fold};
ghost use Rattle.call_chains.specs.inner.Cycles.{candidate_from, candidate_with, may_return, or_sooner};

use crate::call::Call;
use s7_base::List;

/// A call that may lie on a cycle, with its unit.
#[derive(Clone, Copy)]
pub struct Candidate {
    pub unit: usize,
    pub call: Call,
}

/// The number of a unit, 0 where it has none.
pub fn number_of(numbers: &[u32], unit: usize) -> u32
    ensures { result ≡ get_or numbers.now unit 0 }
{
    numbers.get(unit).copied().unwrap_or(0)
}

/// Whether a call makes no number less, as those on cycles do.
fn may_return(numbers: &[u32], unit: usize, call: Call) -> bool
    ensures { result ≡ may_return numbers.now unit call }
{
    number_of(numbers, unit) <= number_of(numbers, call.callee as usize)
}

/// The candidate on the first line, of the one so far and a new one.
fn or_sooner(first: Option<Candidate>, new: Candidate) -> Option<Candidate>
    ensures { result ≡ or_sooner first new }
{
    match first {
        Some(candidate) if candidate.call.line.0 <= new.call.line.0 => first,
        _ => Some(new),
    }
}

fn candidate_with(
    numbers: &[u32],
    unit: usize,
    first: Option<Candidate>,
    call: Call,
) -> Option<Candidate>
    ensures { result ≡ candidate_with numbers.now unit first call }
{
    if may_return(numbers, unit, call) {
        or_sooner(first, Candidate { unit, call })
    } else {
        first
    }
}

fn candidate_in(
    numbers: &[u32],
    unit: usize,
    first: Option<Candidate>,
    calls: &[Call],
) -> Option<Candidate>
    ensures { result ≡ fold (candidate_with numbers.now unit) first calls.now }
{
    let mut soonest = first;
    for call in calls {
        soonest = candidate_with(numbers, unit, soonest, *call);
    }
    soonest
}

/// The call on the first line, of those that make no number less.
pub fn first_candidate(numbers: &[u32], graph: &[List<Call>]) -> Option<Candidate>
    ensures { result ≡ candidate_from numbers.now 0 None graph.now }
{
    let mut first = None;
    for (unit, calls) in graph.iter().enumerate() {
        first = candidate_in(numbers, unit, first, calls.as_slice());
    }
    first
}
