//! The headings at which chains of calls begin that are too long.
ghost use Rattle.std.specs.Prelude.{◌≡◌, ◌++◌, IfOk, OnOk};
ghost use Rattle.st_rules.specs.LongChains.{chain_break, first_long_chain, long_chains};

use call_chains::{Call, chains};
use memory_areas::ACTIVATIONS;
use s7_base::{Break, Line, List, NoMemory, Reason, first_of_all, note};
use st_tree::RawPou;
use std::alloc::Global;

fn chain_break(long: bool, line: Line, breaks: &mut List<Break>) -> Result<(), NoMemory>
    ensures { OnOk result (breaks.new ≡ breaks.old ++ chain_break long line) }
{
    if long {
        note(breaks, line, Reason::CallTooDeep)
    } else {
        Ok(())
    }
}

fn long_chains(alloc: Global, begins: &[bool], units: &[RawPou]) -> Result<List<Break>, NoMemory>
    ensures { IfOk result (λ breaks. breaks ≡ long_chains begins.now 0 units.now) }
{
    let mut breaks = List::new(alloc);
    for (index, unit) in units.iter().enumerate() {
        let long = begins.get(index).copied().unwrap_or(false);
        chain_break(long, unit.line, &mut breaks)?;
    }
    Ok(breaks)
}

/// The first heading at which a chain of more units begins than may run at the same time.
pub fn first_long_chain(
    alloc: Global,
    graph: &[List<Call>],
    units: &[RawPou],
) -> Result<Option<Break>, NoMemory>
    ensures { IfOk result (λ first. first ≡ first_long_chain graph.now units.now) }
{
    let begins = chains(alloc, graph, ACTIVATIONS)?;
    let breaks = long_chains(alloc, begins.as_slice(), units)?;
    Ok(first_of_all(breaks.as_slice()))
}
