//! The units at which chains of a number of calls begin.
ghost use Rattle.std.specs.Prelude.{◌≡◌, map, IfOk};
ghost use Rattle.call_chains.specs.Chain.{calls_one, chains};

use crate::call::Call;
use s7_base::{List, NoMemory};
use std::alloc::Global;

/// Whether a unit at which some chains begin is called.
fn calls_one(begins: &[bool], calls: &[Call]) -> bool
    ensures { result ≡ calls_one begins.now calls.now }
{
    calls.iter().any(|call| begins.get(call.callee as usize).copied().unwrap_or(false))
}

/// At which units chains of one call more begin.
fn longer(alloc: Global, begins: &[bool], graph: &[List<Call>]) -> Result<Vec<bool>, NoMemory>
    ensures { IfOk result (λ v. v.items ≡ map (calls_one begins.now) graph.now) }
{
    let mut longer = Vec::new(alloc);
    for calls in graph {
        longer.push(calls_one(begins, calls.as_slice()))?;
    }
    Ok(longer)
}

/// At which units chains of no calls begin: at every one.
fn shortest(alloc: Global, graph: &[List<Call>]) -> Result<Vec<bool>, NoMemory>
    ensures { IfOk result (λ v. v.items ≡ chains graph.now 0) }
{
    let mut all = Vec::new(alloc);
    all.resize(graph.len(), true)?;
    Ok(all)
}

/// At which units chains of `calls` calls begin.
pub fn chains(alloc: Global, graph: &[List<Call>], calls: usize) -> Result<Vec<bool>, NoMemory>
    ensures { IfOk result (λ v. v.items ≡ chains graph.now calls) }
{
    let mut begins = shortest(alloc, graph)?;
    for _ in 0..calls {
        begins = longer(alloc, begins.as_slice(), graph)?;
    }
    Ok(begins)
}
